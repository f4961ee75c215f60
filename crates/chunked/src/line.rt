//! The parts of a body in chunks that are not its content: the lines before chunks, and the ends of lines.
ghost use Rattle.std.specs.Prelude.{◌≡◌, false, [], ◌∷◌, IfOk, OnOk, IfErr};
ghost use Rattle.std.specs.Io.KnownBytes.{Consumes};
ghost use Rattle.httparse.specs.Grammar.{HasNoChunkLine};
ghost use Rattle.chunked.specs.Bodies.{crlf};
ghost use Rattle.chunked.specs.Reading.{Fails, IsWatched};
ghost use Rattle.chunked.specs.Parts.{HasLine, IsLine, HasText, IsText, ReadsSize, IsCutLine};

use crate::fault::ChunkFault;
use crate::watched::Watched;
use httparse::{Status, parse_chunk_size};
use std::io::Read;

/// How long the line before a chunk may be, with its CR and LF. A size has at most 16 digits; the rest is for an extension,
/// which is passed over.
const LONGEST_LINE: usize = 256;

/// Returns what the end of the input makes of a chunk's line that is not whole.
fn cut_line(line: &[u8]) -> ChunkFault
    requires { HasNoChunkLine line.now }
    ensures { IsCutLine line.now result }
{
    match parse_chunk_size(line) {
        Ok(Status::Complete(_)) => ChunkFault::Truncated,
        Ok(Status::Partial) => ChunkFault::Truncated,
        Err(_) => ChunkFault::Malformed,
    }
}

/// Reads the line before a chunk and nothing beyond it, and returns the size that it says. It is looked at once, when its end
/// has been read.
#[tactic(auto, using(crate::proofs::Lines::nothing_is_no_line, crate::proofs::Lines::line_read, crate::proofs::Lines::line_malformed))]
pub(crate) fn read_size<R: Read + Drop>(device: &mut Watched<R>) -> Result<u64, ChunkFault>
    requires { device.old.failed ≡ false }
    ensures size { IfOk result (λ n. ReadsSize (R.remaining device.old.device) (R.remaining device.new.device) n) }
    ensures fault { IfErr result (λ f. Fails HasLine IsLine (R.remaining device.old.device) (R.remaining device.new.device) f) }
    ensures watched { IsWatched device.new.failed result }
{
    let mut line = [0u8; LONGEST_LINE];
    for len in 0..LONGEST_LINE {
        let byte = match device.byte()? {
            Some(byte) => byte,
            None => return Err(cut_line(&line[..len])),
        };
        line[len] = byte;
        if byte == b'\n' {
            match parse_chunk_size(&line[..len + 1]) {
                Ok(Status::Complete((_, size))) => return Ok(size),
                // No line has a second one in it, so this is never so.
                Ok(Status::Partial) => {}
                Err(_) => return Err(ChunkFault::Malformed),
            }
        }
    }
    Err(ChunkFault::Malformed)
}

/// Reads a byte that is this one.
fn read_this<R: Read + Drop>(device: &mut Watched<R>, wanted: u8) -> Result<(), ChunkFault>
    requires { device.old.failed ≡ false }
    ensures text { OnOk result (Consumes (R.remaining device.old.device) (R.remaining device.new.device) (wanted ∷ [])) }
    ensures fault { IfErr result (λ f. Fails (HasText (wanted ∷ [])) (IsText (wanted ∷ []))
        (R.remaining device.old.device) (R.remaining device.new.device) f) }
    ensures watched { IsWatched device.new.failed result }
{
    match device.byte()? {
        Some(byte) => {
            if byte == wanted {
                Ok(())
            } else {
                Err(ChunkFault::Malformed)
            }
        }
        None => Err(ChunkFault::Truncated),
    }
}

/// Reads the end of a line.
#[tactic(auto, using(crate::proofs::Lines::end_fails_first, crate::proofs::Lines::end_fails_second))]
pub(crate) fn read_end<R: Read + Drop>(device: &mut Watched<R>) -> Result<(), ChunkFault>
    requires { device.old.failed ≡ false }
    ensures text { OnOk result (Consumes (R.remaining device.old.device) (R.remaining device.new.device) crlf) }
    ensures fault { IfErr result (λ f. Fails (HasText crlf) (IsText crlf) (R.remaining device.old.device) (R.remaining device.new.device) f) }
    ensures watched { IsWatched device.new.failed result }
{
    read_this(device, b'\r')?;
    match read_this(device, b'\n') {
        Ok(()) => Ok(()),
        Err(fault) => Err(fault),
    }
}
