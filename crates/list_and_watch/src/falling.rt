//! Whether the revisions that a watch names fall.
ghost use Rattle.std.specs.Prelude.{◌≡◌, IfOk};
ghost use Rattle.serde_json.specs.View.{view};
ghost use Rattle.spec_client_go.specs.ReadFrames.{reading};
ghost use Rattle.spec_client_go.specs.Reflectors.{revision};
ghost use Rattle.framing.specs.Decoders.{events_of};
ghost use Rattle.list_and_watch.specs.Recognized.{falls};

use framing::lines::read_lines;
use framing::{Frame, Want};
use metadata_values::revisions::read_revision;
use serde_json::Value;
use std::alloc::Global;

/// Returns the revision that the metadata of an object names.
fn revision(object: &Value) -> Option<u64>
    ensures { result ≡ revision (view object.now) }
{
    read_revision(object.get("metadata")?.get("resourceVersion")?.as_str()?)
}

/// Returns whether the revisions of frames fall below the last one, or below one another, up to the first frame that names none.
fn frames_fall(frames: &[Frame], last: u64) -> bool
    ensures { result ≡ falls last (events_of frames.now) }
{
    let mut last = last;
    for frame in frames {
        match revision(&frame.object) {
            Some(revision) if last <= revision => last = revision,
            Some(_) => return true,
            None => return false,
        }
    }
    false
}

/// Returns whether the whole frames of these bytes name a revision below the last one, or below one before it. The error is running out of memory.
pub(crate) fn falls(alloc: Global, bytes: &[u8], last: u64) -> Result<bool, Want>
    ensures { IfOk result (λ b. b ≡ falls last (reading bytes.now).events) }
{
    let lines = read_lines(alloc, bytes, 0)?;
    Ok(frames_fall(lines.frames.as_slice(), last))
}
