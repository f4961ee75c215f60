//! Heads of requests, read.
ghost use Rattle.std.specs.Prelude.{◌≡◌, ◌≤◌, ◌<◌, ◌++◌, ℕ, List, IfOk, OnOk, OnErr, IfErr, IfSome, length, vec_capacity, true, false, None, Err};
ghost use Rattle.std.specs.Io.KnownBytes.{Consumes, Keeps, IsAtEnd};
ghost use Rattle.httparse.specs.Grammar.{HasNoRequest, MayBecomeRequest};
ghost use Rattle.chunked.specs.Devices.{device_of, has_failed};
ghost use Rattle.spec_http.specs.Connections.{longest_head, most_fields};
ghost use Rattle.http_request_head.specs.Reading.{IsFound, Reads, IsWatched};
ghost use Rattle.http_request_head.specs.declared.fault.ReadFault.TheVariants as fault;
ghost use Rattle.http_request_head.specs.declared.found.FoundHead.TheVariants as found;

use crate::fault::ReadFault;
use crate::field_lines::line_ends;
use crate::found::FoundHead;
use chunked::Watched;
use httparse::spans::{HeaderSpan, parse_request};
use httparse::{Error, Status};
use std::io::Read;

/// The greatest length of a head, its empty line counted.
pub const LONGEST_HEAD: usize = 16_384;

/// The most fields that a head has.
pub const MOST_FIELDS: usize = 64;

/// The greatest length of a piece.
const PIECE: usize = 4096;

/// Reads a piece onto these bytes, where they are fewer than a head may have, and returns whether there was one: there is none
/// only at the end.
fn read_piece<R: Read + Drop>(
    reader: &mut Watched<R>,
    bytes: &mut Vec<u8>,
) -> Result<bool, ReadFault>
    requires sound { has_failed reader.old ≡ false }
    requires room { length bytes.old.items < longest_head }
    ensures read { Reads (R.remaining (device_of reader.old)) (R.remaining (device_of reader.new)) bytes.old.items bytes.new.items }
    ensures limit { length bytes.new.items ≤ longest_head }
    ensures some { IfOk result (λ some. some ≡ true → length bytes.old.items < length bytes.new.items) }
    ensures end { IfOk result (λ some. some ≡ false → (bytes.new.items ≡ bytes.old.items) × IsAtEnd (R.remaining (device_of reader.new))) }
    ensures kept { OnErr result (bytes.new.items ≡ bytes.old.items) }
    ensures watched { IsWatched (has_failed reader.new) result }
    ensures want { IfErr result (λ f. f ≡ fault.Want → vec_capacity bytes.new < longest_head) }
{
    let room = PIECE.min(LONGEST_HEAD - bytes.len());
    bytes.reserve(room)?;
    let mut piece = [0u8; PIECE];
    match reader.receive(&mut piece[..room]) {
        Ok(n) => {
            bytes.extend_from_slice(&piece[..n])?;
            Ok(n > 0)
        }
        Err(_) => Err(ReadFault::Device),
    }
}

/// Returns what the bytes begin with, if nothing has to follow to say it.
fn look(bytes: &[u8], fields: &mut [HeaderSpan]) -> Option<FoundHead>
    requires room { length fields.old ≡ most_fields }
    requires limit { length bytes.now ≤ longest_head }
    ensures found { IfSome result (λ f. IsFound bytes.now fields.new f) }
    ensures whole { IfSome result (λ f. f ≡ found.Cut → ⊥) }
    ensures none { result ≡ None → HasNoRequest bytes.now }
    ensures unfinished { result ≡ None → MayBecomeRequest bytes.now }
    ensures len { length fields.new ≡ length fields.old }
{
    match parse_request(bytes, fields) {
        Ok(Status::Complete(spans)) => Some(FoundHead::Whole(spans)),
        Ok(Status::Partial) => None,
        Err(Error::TooManyHeaders) => Some(FoundHead::TooLarge),
        Err(_) => Some(FoundHead::IllFormed),
    }
}

/// Returns what the bytes are that end before a head does: a part of one, or of one with too many fields.
fn look_at_end(bytes: &[u8]) -> FoundHead
    requires limit { length bytes.now < longest_head }
    requires none { HasNoRequest bytes.now }
    requires unfinished { MayBecomeRequest bytes.now }
    ensures { (fields : List HeaderSpan) → IsFound bytes.now fields result }
{
    if line_ends(bytes) > MOST_FIELDS + 1 {
        FoundHead::TooLarge
    } else {
        FoundHead::Cut
    }
}

/// Returns what bytes begin with that have come so far: a whole head, what is no head whatever follows, a head that is too large, or
/// a part of a head, which more may follow. It takes no memory.
pub fn find_head(bytes: &[u8], fields: &mut [HeaderSpan]) -> FoundHead
    requires room { length fields.old ≡ most_fields }
    requires limit { length bytes.now ≤ longest_head }
    ensures { IsFound bytes.now fields.new result }
{
    match look(bytes, fields) {
        Some(found) => found,
        None => {
            if bytes.len() < LONGEST_HEAD {
                look_at_end(bytes)
            } else {
                FoundHead::TooLarge
            }
        }
    }
}

/// Reads up to the end of a head, onto what has been read of it before, and returns what the bytes begin with. What is read
/// beyond the head is what follows it. It is read in pieces, of up to 4,096 bytes, and nothing is read once it is clear what
/// the bytes begin with: a line that can be part of no head is found at once.
///
/// A fault loses nothing: what was read stands in `bytes`. After running out of memory, which happens only where `bytes` has no
/// room for a whole head, reading can go on by another call. The reader's fault comes where a call of it fails, or had failed
/// before.
pub fn read_head<R: Read + Drop>(
    reader: &mut Watched<R>,
    bytes: &mut Vec<u8>,
    fields: &mut [HeaderSpan],
) -> Result<FoundHead, ReadFault>
    requires room { length fields.old ≡ most_fields }
    requires limit { length bytes.old.items ≤ longest_head }
    ensures found { IfOk result (λ f. IsFound bytes.new.items fields.new f) }
    ensures end { IfOk result (λ f. f ≡ found.Cut → IsAtEnd (R.remaining (device_of reader.new))) }
    ensures read { Reads (R.remaining (device_of reader.old)) (R.remaining (device_of reader.new)) bytes.old.items bytes.new.items }
    ensures limit { length bytes.new.items ≤ longest_head }
    ensures unread { OnErr result (has_failed reader.old ≡ false → HasNoRequest bytes.new.items) }
    ensures watched { IsWatched (has_failed reader.new) result }
    ensures again { has_failed reader.old ≡ true
        → (result ≡ Err fault.Device) × (reader.new ≡ reader.old) × (bytes.new ≡ bytes.old) }
    ensures want { IfErr result (λ f. f ≡ fault.Want → vec_capacity bytes.new < longest_head) }
{
    if reader.has_failed() {
        return Err(ReadFault::Device);
    }
    while bytes.len() < LONGEST_HEAD {
        match look(bytes.as_slice(), fields) {
            Some(found) => return Ok(found),
            None => {}
        }
        match read_piece(reader, bytes) {
            Ok(true) => {}
            Ok(false) => return Ok(look_at_end(bytes.as_slice())),
            Err(fault) => return Err(fault),
        }
    }
    match look(bytes.as_slice(), fields) {
        Some(found) => Ok(found),
        None => Ok(FoundHead::TooLarge),
    }
}
