//! Bodies in chunks, read whole.
ghost use Rattle.std.specs.Prelude.{◌≡◌, ◌≤◌, ◌<◌, length, IfOk, OnOk, IfErr, None, false};
ghost use Rattle.chunked.specs.Reading.{Reaches, place_of, answered_fault, left_of};
ghost use Rattle.chunked.specs.declared.place.BodyPlace.TheVariants as place;
ghost use Rattle.http_client.specs.Bodies.{ReadsChunks, StopsByPeer};
ghost use Rattle.http_client.specs.Reading.{IfKnown};
ghost use Rattle.http_client.specs.Replies.{IsNoBody, IsBodyLonger};
ghost use Rattle.http_client.specs.declared.fault.ReplyFault.TheVariants as fault;

use crate::fault::ReplyFault;
use chunked::{ChunkFault, Reader};
use std::alloc::Global;
use std::io::Read;

/// The greatest length of a piece.
const PIECE: usize = 8192;

/// Reads a piece of the chunks onto a body of so many bytes at most, and returns whether there was one: there is none only at their end.
fn read_piece<R: Read + Drop>(
    chunks: &mut Reader<R>,
    body: &mut Vec<u8>,
    most: u32,
) -> Result<bool, ReplyFault>
    requires { answered_fault chunks.old ≡ None }
    ensures read { OnOk result (ReadsChunks R.remaining chunks.old chunks.new body.old.items body.new.items) }
    ensures end { IfOk result (λ some. some ≡ false → place_of chunks.new ≡ place.Ended) }
    ensures sound { OnOk result (answered_fault chunks.new ≡ None) }
    ensures within { OnOk result (length body.new.items ≤ most) }
    ensures long { IfErr result (λ f. f ≡ fault.TooLong
        → ReadsChunks R.remaining chunks.old chunks.new body.old.items body.new.items × (most < length body.new.items)) }
    ensures stops { IfErr result (λ f. f ≡ fault.NotAReply → StopsByPeer R.remaining chunks.old chunks.new) }
{
    body.reserve(PIECE)?;
    let mut piece = [0u8; PIECE];
    match chunks.read(&mut piece) {
        Ok(n) => {
            body.extend_from_slice(&piece[..n])?;
            if body.len() > most as usize {
                return Err(ReplyFault::TooLong);
            }
            Ok(n > 0)
        }
        Err(ChunkFault::Malformed) => Err(ReplyFault::NotAReply),
        Err(ChunkFault::Truncated) => Err(ReplyFault::NotAReply),
        Err(ChunkFault::Device) => Err(ReplyFault::Device),
        Err(ChunkFault::Want) => Err(ReplyFault::OutOfMemory),
    }
}

/// Reads the chunks of a body to their end, and returns their bytes, joined. Once more than so many came, no further piece is read.
pub(crate) fn read_chunks<R: Read + Drop>(
    alloc: Global,
    chunks: &mut Reader<R>,
    most: u32,
) -> Result<Vec<u8>, ReplyFault>
    requires start { place_of chunks.old ≡ place.Line }
    requires sound { answered_fault chunks.old ≡ None }
    ensures read { IfOk result (λ body. Reaches place.Line (left_of R.remaining chunks.old) body.items place.Ended (left_of R.remaining chunks.new)) }
    ensures within { IfOk result (λ body. length body.items ≤ most) }
    ensures long { IfErr result (λ f. f ≡ fault.TooLong → IfKnown (left_of R.remaining chunks.old) (IsBodyLonger most)) }
    ensures none { IfErr result (λ f. f ≡ fault.NotAReply → IfKnown (left_of R.remaining chunks.old) IsNoBody) }
{
    let mut body = Vec::new(alloc);
    for _ in 0..u64::MAX {
        match read_piece(chunks, &mut body, most) {
            Ok(true) => {}
            Ok(false) => return Ok(body),
            Err(fault) => return Err(fault),
        }
    }
    Err(ReplyFault::OutOfMemory)
}
