//! The frames of whole lines.
ghost use Rattle.std.specs.Prelude.{◌≡◌, ◌≤◌, ◌-◌, IfOk, length, take, drop, vec_len};
ghost use Rattle.spec_client_go.specs.ReadFrames.{reading};
ghost use Rattle.framing.specs.Lines.{IsPartial};
ghost use Rattle.framing.specs.Decoders.{events_of, given};

use crate::frames::Frame;
use crate::scan::{LONGEST_FRAME, first_newline, read_line};
use crate::wants::Want;
use spec_client_go::frame_fault::FrameFault;
use std::alloc::Global;

/// What bytes gave: frames, and then how many bytes are left of a line that is not whole, or a fault.
#[derive(Drop)]
pub struct Lines {
    pub frames: Vec<Frame>,
    pub kept: usize,
    pub fault: Option<FrameFault>,
}

/// Reads the whole lines of bytes of which the first `known` have no newline.
pub fn read_lines(alloc: Global, bytes: &[u8], known: usize) -> Result<Lines, Want>
    requires within { known ≤ length bytes.now }
    requires partial { IsPartial (take known bytes.now) }
    ensures kept { IfOk result (λ r. r.kept ≤ length bytes.now) }
    ensures reads { IfOk result (λ r. given (events_of r.frames.items) (drop (length bytes.now - r.kept) bytes.now) r.fault ≡ reading bytes.now) }
    ensures partial { IfOk result (λ r. IsPartial (drop (length bytes.now - r.kept) bytes.now)) }
{
    let mut frames = Vec::new(alloc);
    let mut rest = bytes;
    let mut known = known;
    while let Some(at) = first_newline(rest, known) {
        let (line, after) = rest.split_at(at);
        match read_line(alloc, line)? {
            Ok(frame) => frames.push(frame)?,
            Err(fault) => {
                return Ok(Lines {
                    frames,
                    kept: 0,
                    fault: Some(fault),
                });
            }
        }
        rest = after.split_at(1).1;
        known = 0;
    }
    if rest.len() < LONGEST_FRAME {
        Ok(Lines {
            frames,
            kept: rest.len(),
            fault: None,
        })
    } else {
        Ok(Lines {
            frames,
            kept: 0,
            fault: Some(FrameFault::TooLong),
        })
    }
}

/// Removes all but the last `kept` bytes.
pub fn keep_last(bytes: &mut Vec<u8>, kept: usize)
    requires { kept ≤ vec_len bytes.old }
    ensures { bytes.new.items ≡ drop (vec_len bytes.old - kept) bytes.old.items }
{
    let len = bytes.len();
    if kept < len {
        bytes.as_mut_slice().copy_within(len - kept..len, 0);
        bytes.truncate(kept);
    }
}
