//! Which controller is to look at which object.
ghost use Rattle.std.specs.Prelude.{◌≡◌, IfOk};
ghost use Rattle.object_keys.specs.WorkKeys.{work_key_of};

use crate::key::Key;
use spec_client_go::controller::Controller;
use std::alloc::AllocError;

/// A work key: the controller that is to look, and the object that it is to look at. They are ordered by controller, then key.
#[derive(PartialEq, Eq, PartialOrd, Ord)]
pub struct WorkKey {
    pub controller: Controller,
    pub key: Key,
}

impl Drop for WorkKey {
    // Called where one is dropped; a derived drop is proved anew at each such place.
    fn drop(self) {
        let WorkKey {
            controller: _controller,
            key: _key,
        } = self;
    }
}

impl WorkKey {
    /// Returns a copy of the key. The error is running out of memory.
    pub fn try_copy(&self) -> Result<WorkKey, AllocError>
        ensures { IfOk result (λ k. work_key_of k ≡ work_key_of self.now) }
    {
        Ok(WorkKey {
            controller: self.controller,
            key: self.key.try_copy()?,
        })
    }
}
