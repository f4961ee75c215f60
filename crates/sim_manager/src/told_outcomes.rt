//! Outcomes with the lines by which they are told.
ghost use Rattle.std.specs.Prelude.{◌≡◌, IfOk, option_map, string_bytes};
ghost use Rattle.spec_sim.specs.ControlPlaneOutcomeTexts.{outcome_text};
ghost use Rattle.object_keys.specs.WorkKeys.{work_key_of};
ghost use Rattle.sim_manager.specs.Outcomes.{outcome_of};

use crate::outcomes::WorkOutcome;
use object_keys::WorkKey;
use sim_worker_slots::lines;
use std::alloc::{AllocError, Global};

/// What came of a step, and the line by which it is told: where there is no memory for it, the step is not taken.
pub struct ToldOutcome {
    pub outcome: WorkOutcome,
    pub line: Vec<u8>,
    ghost says: { line.items ≡ outcome_text (outcome_of outcome) },
}

impl Drop for ToldOutcome {
    // Called where one is dropped; a derived drop is proved anew at each such place.
    fn drop(self) {
        let ToldOutcome {
            outcome: _outcome,
            line: _line,
        } = self;
    }
}

impl ToldOutcome {
    /// Returns an outcome with its line. The error is running out of memory.
    pub fn of(alloc: Global, outcome: WorkOutcome) -> Result<ToldOutcome, AllocError>
        ensures { IfOk result (λ t. t.outcome ≡ outcome) }
    {
        let line = line_of(alloc, &outcome)?;
        Ok(ToldOutcome { outcome, line })
    }

    /// Returns the line.
    pub fn into_line(self) -> Vec<u8>
        ensures { result.items ≡ outcome_text (outcome_of self.outcome) }
    {
        let ToldOutcome {
            outcome: _outcome,
            line,
        } = self;
        line
    }
}

/// Returns the line by which an outcome is told. The error is running out of memory.
fn line_of(alloc: Global, outcome: &WorkOutcome) -> Result<Vec<u8>, AllocError>
    ensures { IfOk result (λ l. l.items ≡ outcome_text (outcome_of outcome.now)) }
{
    match outcome {
        WorkOutcome::NoStep => lines::no_step(alloc),
        WorkOutcome::Took { worker, key } => lines::took(alloc, *worker, key.as_ref()),
        WorkOutcome::Looked {
            worker,
            kind,
            revision,
        } => lines::looked(alloc, *worker, *kind, *revision),
        WorkOutcome::Satisfied {
            worker,
            is_satisfied,
        } => lines::satisfied(alloc, *worker, *is_satisfied),
        WorkOutcome::Read {
            worker,
            key,
            version,
        } => lines::read(alloc, *worker, key, text_in(version)),
        WorkOutcome::Expected {
            worker,
            creations,
            deletions,
        } => lines::expected(alloc, *worker, *creations, *deletions),
        WorkOutcome::Issued { worker, issued } => {
            lines::issued(alloc, *worker, &issued.command, &issued.answer)
        }
        WorkOutcome::Finished {
            worker,
            is_accepted,
        } => lines::finished(alloc, *worker, *is_accepted),
        WorkOutcome::Handled { kind, keys } => lines::handled(alloc, *kind, *keys),
        WorkOutcome::Time { milliseconds } => lines::time(alloc, *milliseconds),
    }
}

/// Returns a text, if there is one. It takes no memory.
fn text_in(text: &Option<String>) -> Option<&str>
    ensures { option_map (λ t. t.now) result ≡ option_map string_bytes text.now }
{
    match text {
        Some(text) => Some(text.as_str()),
        None => None,
    }
}

/// Returns a copy of a text, if there is one. The error is running out of memory.
pub(crate) fn text_copy(alloc: Global, text: Option<&str>) -> Result<Option<String>, AllocError>
    ensures { IfOk result (λ copy. option_map string_bytes copy ≡ option_map (λ t. t.now) text.entry) }
{
    match text {
        Some(text) => Ok(Some(String::from_str(alloc, text)?)),
        None => Ok(None),
    }
}

/// Returns a copy of a work key, if there is one. The error is running out of memory.
pub(crate) fn key_copy(key: Option<&WorkKey>) -> Result<Option<WorkKey>, AllocError>
    ensures { IfOk result (λ copy. option_map work_key_of copy ≡ option_map (λ k. work_key_of k.now) key.entry) }
{
    match key {
        Some(key) => Ok(Some(key.try_copy()?)),
        None => Ok(None),
    }
}
