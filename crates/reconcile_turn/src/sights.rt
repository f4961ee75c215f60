//! What a worker has seen.
ghost use Rattle.std.specs.Prelude.{◌≡◌, IfOk, map};
ghost use Rattle.spec_sim.specs.Turns.{shown, was_satisfied, looks};
ghost use Rattle.reconcile_types.specs.Hands.{looks_by, members_of};
ghost use Rattle.reconcile_turn.specs.Seen.{sight_of};
ghost use Rattle.reconcile_turn.specs.Looked.{shown_by};

use indexer::Indexed;
use object_keys::PerKind;
use spec_api::kinds::Kind;
use std::alloc::{AllocError, Global};

/// What a worker has seen.
#[derive(Drop)]
pub enum Sight {
    /// What was published of a kind when it was looked at.
    Looked(Kind, Indexed),
    /// Whether all pods that were expected have been seen.
    Satisfied(bool),
}

impl Sight {
    /// Returns a copy, which shares the objects. The error is running out of memory.
    pub fn try_copy(&self) -> Result<Sight, AllocError>
        ensures { IfOk result (λ s. sight_of s ≡ sight_of self.now) }
    {
        match self {
            Sight::Looked(kind, published) => Ok(Sight::Looked(*kind, published.try_copy()?)),
            Sight::Satisfied(is_satisfied) => Ok(Sight::Satisfied(*is_satisfied)),
        }
    }
}

/// Returns what the first look at a kind showed, if there was one. It takes no memory.
pub fn look_at<'a>(sights: &'a [Sight], kind: Kind) -> Option<&'a Indexed>
    ensures { shown_by result ≡ shown kind (map sight_of sights.now) }
{
    for sight in sights {
        if let Sight::Looked(other, published) = sight {
            if *other == kind {
                return Some(published);
            }
        }
    }
    None
}

/// Returns the first answer whether all pods that were expected have been seen; false where there was none. It takes no
/// memory.
pub fn was_satisfied(sights: &[Sight]) -> bool
    ensures { result ≡ was_satisfied (map sight_of sights.now) }
{
    for sight in sights {
        if let Sight::Satisfied(is_satisfied) = sight {
            return *is_satisfied;
        }
    }
    false
}

/// Returns a copy of what the first look at a kind showed, if there was one. The error is running out of memory.
fn copy_of_look(sights: &[Sight], kind: Kind) -> Result<Option<Indexed>, AllocError>
    ensures { IfOk result (λ o. members_of (λ i. i) o ≡ shown kind (map sight_of sights.now)) }
{
    match look_at(sights, kind) {
        Some(published) => Ok(Some(published.try_copy()?)),
        None => Ok(None),
    }
}

/// Returns what the looks showed. The error is running out of memory.
pub fn looks(sights: &[Sight]) -> Result<PerKind<Option<Indexed>>, AllocError>
    ensures { IfOk result (λ l. looks_by (members_of (λ i. i)) l ≡ looks (map sight_of sights.now)) }
{
    PerKind::try_made(|kind| copy_of_look(sights, kind))
}

/// Returns copies of sights, which share the objects. The error is running out of memory.
pub fn copies(alloc: Global, sights: &[Sight]) -> Result<Vec<Sight>, AllocError>
    ensures { IfOk result (λ v. map sight_of v.items ≡ map sight_of sights.now) }
{
    let mut made = Vec::with_capacity(alloc, sights.len())?;
    for sight in sights {
        made.push(sight.try_copy()?)?;
    }
    Ok(made)
}
