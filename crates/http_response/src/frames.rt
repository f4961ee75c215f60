//! Frames of watches, added to a text as chunks, so that many of them go out in one write. The error of each function is out of
//! memory; some of the frames may then have been added.
ghost use Rattle.std.specs.Prelude.{◌≡◌, ◌++◌, OnOk, map, false, true};
ghost use Rattle.chunked.specs.Bodies.{chunk_text};
ghost use Rattle.spec_api.specs.Frames.{frame_text, bookmark_frame, error_frame};
ghost use Rattle.object_keys.specs.Faults.{refusal_of};
ghost use Rattle.http_response.specs.Frames.{change_frames, object_frames};
ghost use Rattle.revisions.specs.Events.{event_seen};

use chunked::push_chunk;
use meta::StoredObject;
use object_keys::Fault;
use revisions::Event;
use spec_api::kinds::Kind;
use std::alloc::{AllocError, Global};

/// Adds the frames of events.
pub fn push_changes(alloc: Global, text: &mut Vec<u8>, events: &[Event]) -> Result<(), AllocError>
    ensures { OnOk result (text.new.items ≡ text.old.items ++ change_frames (map event_seen events.now)) }
{
    for event in events {
        let line = framing::frame_text(alloc, event)?;
        push_chunk(alloc, text, line.as_bytes())?;
    }
    Ok(())
}

/// Adds the frames of objects that are there as a watch begins.
pub fn push_objects(
    alloc: Global,
    text: &mut Vec<u8>,
    objects: &[StoredObject],
) -> Result<(), AllocError>
    ensures { OnOk result (text.new.items ≡ text.old.items ++ object_frames (map (λ o. o.value) objects.now)) }
{
    for object in objects {
        let line = framing::added_text(alloc, object)?;
        push_chunk(alloc, text, line.as_bytes())?;
    }
    Ok(())
}

/// Adds the frame of a bookmark.
pub fn push_bookmark(
    alloc: Global,
    text: &mut Vec<u8>,
    kind: Kind,
    revision: u64,
) -> Result<(), AllocError>
    ensures { OnOk result (text.new.items
        ≡ text.old.items ++ chunk_text (frame_text (bookmark_frame kind false revision))) }
{
    let line = framing::bookmark_text(alloc, kind, false, revision)?;
    push_chunk(alloc, text, line.as_bytes())
}

/// Adds the frame of the bookmark that closes the initial events of a watch.
pub fn push_closing(
    alloc: Global,
    text: &mut Vec<u8>,
    kind: Kind,
    revision: u64,
) -> Result<(), AllocError>
    ensures { OnOk result (text.new.items
        ≡ text.old.items ++ chunk_text (frame_text (bookmark_frame kind true revision))) }
{
    let line = framing::bookmark_text(alloc, kind, true, revision)?;
    push_chunk(alloc, text, line.as_bytes())
}

/// Adds the frame that says why a watch ends.
pub fn push_error(alloc: Global, text: &mut Vec<u8>, fault: &Fault) -> Result<(), AllocError>
    ensures { OnOk result (text.new.items
        ≡ text.old.items ++ chunk_text (frame_text (error_frame (refusal_of fault.now)))) }
{
    let line = framing::error_text(alloc, fault)?;
    push_chunk(alloc, text, line.as_bytes())
}
