//! Where a turn is.
ghost use Rattle.std.specs.Prelude.{◌≡◌, IfOk};
ghost use Rattle.reconcile_turn.specs.Stages.{phase_of};

use object_keys::Key;
use reconcile_types::Plan;
use std::alloc::{AllocError, Global};
use std::sync::Arc;

/// Where a turn is.
#[derive(Drop)]
pub enum Stage {
    /// Something is still to be seen.
    Seeing,
    /// All was seen, and a key is to be read live.
    Reading(Key),
    /// All was seen and read; with the plan, and whether pods are expected of it.
    Planned(Arc<Plan, Global>, bool),
}

impl Stage {
    /// Returns a copy, which shares the plan. The error is running out of memory.
    pub fn try_copy(&self) -> Result<Stage, AllocError>
        ensures { IfOk result (λ s. phase_of s ≡ phase_of self.now) }
    {
        match self {
            Stage::Seeing => Ok(Stage::Seeing),
            Stage::Reading(key) => Ok(Stage::Reading(key.try_copy()?)),
            Stage::Planned(plan, expects_pods) => {
                let plan = Arc::try_clone(plan)?;
                Ok(Stage::Planned(plan, *expects_pods))
            }
        }
    }
}
