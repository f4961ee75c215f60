//! A scenario in which an owner comes and goes while nobody sees its kind.
use crate::clients::Client;
use crate::environments::Environment;
use crate::objects::{owned_pod, owner};
use crate::polling::wait_until;
use crate::scenarios::Scenario;
use spec_api::kinds::Kind;
use std::alloc::{AllocError, Global};
use std::sync::Wait;
use std::time::Clock;

/// The uid of an owner that is not there: the server makes none like it.
const GONE: &str = "gone";

/// The name of the owner, and that of the pod which it owns.
const OWNER: &str = "owner";

const KEPT: &str = "kept";

/// A client makes a pod and its owner, a ConfigMap, and removes the owner, while the watch of ConfigMaps gives nothing. That watch is cut then, and is
/// refused as expired, so that ConfigMaps are listed again. No change shows that the owner was there. The client waits until the pod has gone.
#[derive(Drop)]
pub struct Vanishing<'a, R> {
    pub alloc: Global,
    pub client: Client<'a, R>,
    pub environment: &'a Environment,
}

impl<R: Wait + Clock> Vanishing<'_, R> {
    /// Creates a pod with an owner, and returns whether it was created.
    fn create_pod(&mut self, name: &str, owner_name: &str, uid: &str) -> Result<bool, AllocError> {
        let reference = owner(self.alloc, owner_name, uid)?;
        let text = owned_pod(self.alloc, name, reference.as_str())?;
        Ok(self.client.create(Kind::Pod, text.as_str()).is_some())
    }

    /// Waits until a pod is not there, and returns whether it has gone.
    fn await_gone(&mut self, name: &str) -> bool {
        let rt = self.client.rt;
        wait_until(rt, || self.client.get(Kind::Pod, name).is_none())
    }

    /// Has the collector delete a pod whose owner is not there, and returns whether it did. Who added a key before has had a turn by then, since there is
    /// one worker; and each kind was listed.
    fn await_turns(&mut self, name: &str) -> Result<bool, AllocError> {
        Ok(self.create_pod(name, "nobody", GONE)? && self.await_gone(name))
    }

    /// Creates the owner, and returns its uid, if it was created.
    fn create_owner(&mut self) -> Result<Option<String>, AllocError> {
        let text = format!(in self.alloc; "{{\"metadata\":{{\"name\":\"{}\"}}}}", OWNER)?;
        let Some(made) = self.client.create(Kind::ConfigMap, text.as_str()) else {
            return Ok(None);
        };
        match made.pointer("/metadata/uid").and_then(|it| it.as_str()) {
            Some(uid) => Ok(Some(String::from_str(self.alloc, uid)?)),
            None => Ok(None),
        }
    }

    /// Makes the pod and its owner, and removes the owner once the collector has looked at the pod. Returns whether all was done.
    fn make_and_remove(&mut self) -> Result<bool, AllocError> {
        let Some(uid) = self.create_owner()? else {
            return Ok(false);
        };
        Ok(
            self.create_pod(KEPT, OWNER, uid.as_str())?
                && self.await_turns("second")?
                && self.client.delete(Kind::ConfigMap, OWNER),
        )
    }

    /// Does all of it, and returns whether the pod has gone.
    fn run_through(&mut self) -> Result<bool, AllocError> {
        if !self.await_turns("first")? {
            return Ok(false);
        }
        self.environment.hold_config_maps();
        if !self.make_and_remove()? {
            return Ok(false);
        }
        self.environment.lose_config_maps();
        Ok(self.await_gone(KEPT))
    }
}

impl<R: Wait + Clock> Scenario for Vanishing<'_, R> {
    fn run(&mut self) -> bool {
        self.run_through().unwrap_or(false)
    }
}
