//! What is told of a key whose reconciles fail.
ghost use Rattle.std.specs.Prelude.{◌≡◌};
ghost use Rattle.controller_layers.specs.KeyNotes.{fine_again, is_conflict, is_told, note_of, same_cause};

use http_client::statuses::CONFLICT;
use keyed_board::{Failure, Outcome};

/// What is told of a key after a reconcile.
#[derive(Clone, Copy)]
pub enum KeyNote {
    /// Nothing is.
    Nothing,
    /// Its reconcile fails, for this cause.
    Fails(Failure),
    /// It is fine again.
    IsFine,
}

/// Returns whether a failure is a conflict, which is in the nature of working by a copy.
fn is_conflict(failure: Failure) -> bool
    ensures { result ≡ is_conflict failure }
{
    match failure {
        Failure::Refused { code, .. } => code == CONFLICT,
        _ => false,
    }
}

/// Returns whether two failures have the same cause; for how long a server asks to be left alone makes no other.
fn same_cause(one: Failure, other: Failure) -> bool
    ensures { result ≡ same_cause one other }
{
    match (one, other) {
        (Failure::Refused { code, .. }, Failure::Refused { code: same, .. }) => code == same,
        (Failure::NoReply, Failure::NoReply) => true,
        (Failure::NoMemory, Failure::NoMemory) => true,
        (Failure::NoVersion, Failure::NoVersion) => true,
        (Failure::Other(words), Failure::Other(same)) => words.as_bytes() == same.as_bytes(),
        _ => false,
    }
}

/// Returns whether a failure was told.
fn is_told(failure: Failure, told: Option<Failure>) -> bool
    ensures { result ≡ is_told failure told }
{
    match told {
        Some(told) => same_cause(failure, told),
        None => false,
    }
}

/// Returns what is told once a reconcile did not fail.
fn fine_again(told: Option<Failure>) -> KeyNote
    ensures { result ≡ fine_again told }
{
    match told {
        Some(_) => KeyNote::IsFine,
        None => KeyNote::Nothing,
    }
}

/// Returns what is told of a key after a reconcile of it, by the failure that was told of it last and is not over: a failure once, until it is fine
/// again or fails for another cause; and then that it is fine. Of a conflict nothing is told.
pub fn note_of(told: Option<Failure>, outcome: Outcome) -> KeyNote
    ensures { result ≡ note_of told outcome }
{
    match outcome {
        Outcome::Done => fine_again(told),
        Outcome::LookAgain { .. } => fine_again(told),
        Outcome::Failed(failure) => {
            if is_conflict(failure) || is_told(failure, told) {
                KeyNote::Nothing
            } else {
                KeyNote::Fails(failure)
            }
        }
    }
}
