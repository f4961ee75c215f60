//! What most controllers ask of a server.
ghost use Rattle.std.specs.Prelude.{◌≡◌, IfOk};
ghost use Rattle.http_client.specs.declared.answer.Answer.{Answer};
ghost use Rattle.object_keys.specs.Keys.{key_of};
ghost use Rattle.request_parts.specs.Requests.{request_of};
ghost use Rattle.reconciler.specs.Asked.{is_delete, is_done, outcome_of, asked_by, AsksFor, deletes};
ghost use Rattle.reconciler.specs.Traces.{Asks};

use api_client::Api;
use http_client::Answer;
use http_client::statuses::{FIRST_REDIRECTION, NOT_FOUND, OK};
use keyed_board::{Failure, Outcome};
use lifecycle::DeleteOptions;
use meta::Object;
use object_keys::Key;
use request_parts::Request;
use spec_api::kinds::Kind;
use std::alloc::{AllocError, Global};

/// Returns the key of the object of a kind that is called as another. The error is running out of memory.
pub fn namesake(key: &Key, kind: Kind) -> Result<Key, AllocError>
    ensures { IfOk result (λ k. key_of k ≡ record (key_of key.now) { kind = kind }) }
{
    let (namespace, name) = key.try_copy()?.into_texts();
    Ok(Key {
        kind,
        namespace,
        name,
    })
}

/// Returns the request that deletes an object, and none that has come to be called so since it was seen. The error is running out of memory.
pub fn deletion(alloc: Global, key: Key, object: &Object) -> Result<Request, AllocError>
    ensures { IfOk result (λ request. request_of request ≡ deletes (key_of key) object.now.value) }
{
    let uid = String::from_str(alloc, object.uid().unwrap_or(""))?;
    let options = DeleteOptions {
        uid: Some(uid),
        version: None,
        policy: None,
    };
    Ok(Request::Delete(key, options))
}

/// Returns whether a request is a delete.
fn is_delete(request: &Request) -> bool
    ensures { result ≡ is_delete (request_of request.now) }
{
    matches!(request, Request::Delete(_, _))
}

/// Returns whether a reply of this code says that it is as was asked: the server did it, or what was to be deleted is not there.
fn is_done(request: &Request, code: u16) -> bool
    ensures { result ≡ is_done (request_of request.now) code }
{
    (OK..FIRST_REDIRECTION).contains(&code) || (code == NOT_FOUND && is_delete(request))
}

/// Returns how it went with a key, by what became of the request for it.
fn outcome_of(request: &Request, answer: &Answer) -> Outcome
    ensures { result ≡ outcome_of (request_of request.now) answer.now }
{
    match answer {
        Answer::Replied(reply) => {
            if is_done(request, reply.code) {
                Outcome::Done
            } else {
                Outcome::Failed(Failure::Refused {
                    code: reply.code,
                    retry_after: reply.retry_after,
                })
            }
        }
        Answer::NotSent | Answer::Lost => Outcome::Failed(Failure::NoReply),
    }
}

/// Asks a request of a server, and returns how that went.
fn ask_one<A: Api>(alloc: Global, api: &mut A, request: &Request) -> Outcome
    ensures { (answer : Answer) × A.answers api.old (request_of request.now) answer api.new × (result ≡ outcome_of (request_of request.now) answer) }
{
    outcome_of(request, &api.call(alloc, request))
}

/// Asks what is to be asked for a key, if something is, and nothing else, and returns how it went: done where nothing is, where the server did it (a code
/// from 200 to 299), or where what it was to delete is not there (404). Else it failed, and it is said why: at any other code, as at a conflict, by that
/// and by how long the server asks to be left alone; where nothing came back; or where it is given a failure in place of a request.
pub fn ask<A: Api>(alloc: Global, api: &mut A, next: Result<Option<Request>, Failure>) -> Outcome
    ensures { Asks A.answers api.old api.new (λ trace. AsksFor (asked_by next) trace result) }
{
    match next {
        Ok(Some(request)) => ask_one(alloc, api, &request),
        Ok(None) => Outcome::Done,
        Err(failure) => Outcome::Failed(failure),
    }
}
