//! What happens at a server.
ghost use Rattle.std.specs.Prelude.{◌≡◌, IfOk, option_map};
ghost use Rattle.meta.specs.Writes.{write_of};
ghost use Rattle.line_session.specs.Effects.{effect_of};
ghost use Rattle.line_session.specs.Entries.{entry_of};
ghost use Rattle.line_session.specs.RecordedStates.{entry_in};

use crate::effects::Effect;
use meta::Write;
use std::alloc::AllocError;

/// What happened at a server: all of it, in order, is its history.
#[derive(Drop)]
pub enum JournalEntry {
    /// An object was put under its key, or removed. The first write has revision 2, and each the next one.
    Write(Write),
    /// What had happened up to this revision was compacted (etcd API, Compact).
    Compaction(u64),
}

/// Returns a copy of a write, which shares the object's text.
fn copy_of(write: &Write) -> Result<Write, AllocError>
    ensures { IfOk result (λ copy. write_of copy ≡ write_of write.now) }
{
    let key = write.key.try_copy()?;
    match &write.put {
        None => Ok(Write { key, put: None }),
        Some(object) => Ok(Write {
            key,
            put: Some(object.try_copy()?),
        }),
    }
}

/// Returns what happens by an effect, if anything does: another moment is none of it. The error is running out of memory.
pub(crate) fn happening(effect: &Effect) -> Result<Option<JournalEntry>, AllocError>
    ensures { IfOk result (λ found. option_map entry_of found ≡ entry_in (effect_of effect.now)) }
{
    match effect {
        Effect::Nothing | Effect::Moment(_) => Ok(None),
        Effect::Write(write) => Ok(Some(JournalEntry::Write(copy_of(write)?))),
        Effect::Compaction(revision) => Ok(Some(JournalEntry::Compaction(*revision))),
    }
}
