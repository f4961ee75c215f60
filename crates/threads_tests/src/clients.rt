//! A client of the server.
ghost use Rattle.std.specs.Prelude.{All};
ghost use Rattle.desk.specs.Desks.{IsNewAt};

use crate::scenes::Scene;
use crate::servers::SharedServer;
use api_client::Api;
use desk::StorePass;
use http_client::Answer;
use lifecycle::DeleteOptions;
use object_keys::Key;
use request_parts::Request;
use serde_json::Value;
use spec_api::kinds::Kind;
use std::alloc::{AllocError, Global};
use std::sync::Wait;
use std::time::Clock;

/// A client of a server, for objects of the namespace `default`.
#[derive(Drop)]
pub struct Client<'a, R> {
    pub rt: &'a R,
    alloc: Global,
    server: SharedServer<'a, R>,
}

/// Returns the key of a name.
fn key(alloc: Global, kind: Kind, name: &str) -> Result<Key, AllocError> {
    Ok(Key {
        kind,
        namespace: String::from_str(alloc, "default")?,
        name: String::from_str(alloc, name)?,
    })
}

/// Returns what is answered, where what was asked was done.
fn done(alloc: Global, answer: &Answer) -> Option<Value> {
    let Answer::Replied(reply) = answer else {
        return None;
    };
    if reply.code < 200 || 300 <= reply.code {
        return None;
    }
    let text = str::from_utf8(reply.body.as_slice()).ok()?;
    Value::from_str(alloc, text).ok()
}

impl<'a, R: Wait + Clock> Client<'a, R> {
    ghost use Rattle.std.specs.Prelude.{All};
    ghost use Rattle.desk.specs.Desks.{IsNewAt};

    /// Returns a client of a scene's server, with the last of the passes. The error is that none is left.
    pub fn new(
        scene: &Scene<'a, R>,
        passes: &mut Vec<StorePass>,
    ) -> Result<Client<'a, R>, AllocError>
        requires { All (IsNewAt scene.now.environment.now.desk) passes.old.items }
        ensures { All (IsNewAt scene.now.environment.now.desk) passes.new.items }
    {
        let server = SharedServer::next(scene, passes)?;
        Ok(Client {
            rt: scene.rt,
            alloc: scene.alloc,
            server,
        })
    }

    /// Asks a request, and returns what is answered, if it was done.
    fn ask(&mut self, request: &Request) -> Option<Value> {
        let answer = self.server.call(self.alloc, request);
        done(self.alloc, &answer)
    }

    /// Creates the object of a kind that a text declares, and returns it, if it was created.
    pub fn create(&mut self, kind: Kind, text: &str) -> Option<Value> {
        let body = Value::from_str(self.alloc, text).ok()?;
        let namespace = String::from_str(self.alloc, "default").ok()?;
        self.ask(&Request::Create(kind, namespace, body))
    }

    /// Changes an object by a merge patch, and returns whether it was changed.
    pub fn patch(&mut self, kind: Kind, name: &str, text: &str) -> bool {
        let (Ok(body), Ok(key)) = (
            Value::from_str(self.alloc, text),
            key(self.alloc, kind, name),
        ) else {
            return false;
        };
        self.ask(&Request::Patch(key, body)).is_some()
    }

    /// Deletes an object, and returns whether it was deleted.
    pub fn delete(&mut self, kind: Kind, name: &str) -> bool {
        let Ok(key) = key(self.alloc, kind, name) else {
            return false;
        };
        let options = DeleteOptions {
            uid: None,
            version: None,
            policy: None,
        };
        self.ask(&Request::Delete(key, options)).is_some()
    }

    /// Returns the object of a name, if it is there.
    pub fn get(&mut self, kind: Kind, name: &str) -> Option<Value> {
        let key = key(self.alloc, kind, name).ok()?;
        self.ask(&Request::Get(key))
    }

    /// Returns the list of a kind.
    pub fn list(&mut self, kind: Kind) -> Option<Value> {
        let answer = self.server.list(self.alloc, kind);
        done(self.alloc, &answer)
    }
}
