//! Lines within bytes, and the frame of one line.
ghost use Rattle.std.specs.Prelude.{◌≡◌, ◌≤◌, ◌<◌, ◌+◌, ◌++◌, ◌∷◌, IfOk, MatchOption, length, take, drop, option_map};
ghost use Rattle.serde_json.specs.View.{view};
ghost use Rattle.serde_json.specs.Find.{get};
ghost use Rattle.framing.specs.Lines.{IsPartial};
ghost use Rattle.spec_client_go.specs.ReadFrames.{object_at, frame_in, line_read};
ghost use Rattle.framing.specs.Decoders.{event_of};
ghost use Rattle.framing.specs.Scans.{IsRead};

use crate::frames::Frame;
use crate::wants::Want;
use memchr::memchr;
use serde_json::{Category, Value};
use spec_api::frames::FrameKind;
use spec_client_go::frame_fault::FrameFault;
use std::alloc::Global;

/// The most bytes of a frame, its newline counted.
pub const LONGEST_FRAME: usize = 2_097_152;

/// Returns the place of the first newline, where the first `known` bytes have none.
pub fn first_newline(bytes: &[u8], known: usize) -> Option<usize>
    requires within { known ≤ length bytes.now }
    requires partial { IsPartial (take known bytes.now) }
    ensures { MatchOption result (IsPartial bytes.now) (λ i. (i < length bytes.now)
        × IsPartial (take i bytes.now) × (bytes.now ≡ take i bytes.now ++ 10 ∷ drop (i + 1) bytes.now)) }
{
    let at = memchr(b'\n', bytes.split_at(known).1)?;
    Some(known + at)
}

/// Returns the frame that a value is.
fn frame_of(value: Value) -> Option<Frame>
    ensures { option_map event_of result ≡ frame_in (view value) }
{
    let kind = FrameKind::named(value.get("type")?.as_str()?)?;
    let object = object_at(value, "object")?;
    Some(Frame { kind, object })
}

/// Returns a member of a value.
pub fn take_member(value: Value, name: &str) -> Option<Value>
    ensures { option_map view result ≡ get name.now (view value) }
{
    match value {
        Value::Object(members) => {
            let mut members = members;
            members.remove(name)
        }
        _ => None,
    }
}

/// Returns a member of a value, if it is an object.
fn object_at(value: Value, name: &str) -> Option<Value>
    ensures { option_map view result ≡ object_at name.now (view value) }
{
    let member = take_member(value, name)?;
    if member.is_object() {
        Some(member)
    } else {
        None
    }
}

/// Returns the frame of a line, its newline left out.
pub fn read_line(alloc: Global, line: &[u8]) -> Result<Result<Frame, FrameFault>, Want>
    ensures { IfOk result (λ r. IsRead r (line_read line.now)) }
{
    if line.len() >= LONGEST_FRAME {
        return Ok(Err(FrameFault::TooLong));
    }
    match Value::from_slice(alloc, line) {
        Ok(value) => match frame_of(value) {
            Some(frame) => Ok(Ok(frame)),
            None => Ok(Err(FrameFault::NotAFrame)),
        },
        Err(e) => match e.classify() {
            Category::Memory => Err(Want),
            _ => Ok(Err(FrameFault::NotAFrame)),
        },
    }
}
