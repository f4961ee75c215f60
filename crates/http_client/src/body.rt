//! Bodies of a known length, read.
ghost use Rattle.std.specs.Prelude.{◌≡◌, ◌≤◌, ◌<◌, ◌-◌, IfOk, OnOk, IfErr, length, true, false};
ghost use Rattle.std.specs.Io.KnownBytes.{Consumes, IsAtEnd};
ghost use Rattle.chunked.specs.Devices.{device_of, has_failed};
ghost use Rattle.http_client.specs.Reading.{IsWatched, ReadsMore, IfKnown, IsShorterThan};
ghost use Rattle.http_client.specs.declared.fault.ReplyFault.TheVariants as fault;

use crate::fault::ReplyFault;
use chunked::Watched;
use std::alloc::Global;
use std::io::Read;

/// The greatest length of a piece.
const PIECE: usize = 8192;

/// Reads a piece of at most this length onto a body, and returns whether there was one: there is none only at the end.
fn read_piece<R: Read + Drop>(
    reader: &mut Watched<R>,
    body: &mut Vec<u8>,
    most: usize,
) -> Result<bool, ReplyFault>
    requires sound { has_failed reader.old ≡ false }
    requires room { 0 < most }
    ensures read { OnOk result (ReadsMore (R.remaining (device_of reader.old)) (R.remaining (device_of reader.new)) body.old.items body.new.items) }
    ensures most { OnOk result (length body.new.items - length body.old.items ≤ most) }
    ensures some { IfOk result (λ some. some ≡ true → length body.old.items < length body.new.items) }
    ensures end { IfOk result (λ some. some ≡ false → (body.new.items ≡ body.old.items) × IsAtEnd (R.remaining (device_of reader.new))) }
    ensures watched { IsWatched (has_failed reader.new) result }
    ensures fault { IfErr result (λ f. f ≡ fault.NotAReply → ⊥) }
    ensures room { IfErr result (λ f. f ≡ fault.TooLong → ⊥) }
{
    let room = PIECE.min(most);
    body.reserve(room)?;
    let mut piece = [0u8; PIECE];
    match reader.receive(&mut piece[..room]) {
        Ok(n) => {
            body.extend_from_slice(&piece[..n])?;
            Ok(n > 0)
        }
        Err(_) => Err(ReplyFault::Device),
    }
}

/// Returns a body of this length, and reads nothing beyond it. It is read in pieces of up to 8,192 bytes, and takes memory for what has
/// come, whatever its head says of its length.
pub(crate) fn read_body<R: Read + Drop>(
    alloc: Global,
    reader: &mut Watched<R>,
    size: usize,
) -> Result<Vec<u8>, ReplyFault>
    requires { has_failed reader.old ≡ false }
    ensures read { IfOk result (λ body. Consumes (R.remaining (device_of reader.old)) (R.remaining (device_of reader.new)) body.items) }
    ensures whole { IfOk result (λ body. length body.items ≡ size) }
    ensures short { IfErr result (λ f. f ≡ fault.NotAReply → IfKnown (R.remaining (device_of reader.old)) (IsShorterThan size)) }
    ensures room { IfErr result (λ f. f ≡ fault.TooLong → ⊥) }
    ensures watched { IsWatched (has_failed reader.new) result }
{
    let mut body = Vec::new(alloc);
    while body.len() < size {
        let most = size - body.len();
        match read_piece(reader, &mut body, most) {
            Ok(true) => {}
            Ok(false) => return Err(ReplyFault::NotAReply),
            Err(fault) => return Err(fault),
        }
    }
    Ok(body)
}
