//! Heads of replies, found in what a stream gives.
ghost use Rattle.std.specs.Prelude.{◌≡◌, ◌≤◌, ◌∷◌, [], IfOk, OnOk, IfErr, MatchOption, length, false};
ghost use Rattle.std.specs.Io.KnownBytes.{Consumes, IsAtEnd};
ghost use Rattle.httparse.specs.Grammar.{HasNoResponse};
ghost use Rattle.httparse.specs.Spans.{ResponseOverflows};
ghost use Rattle.chunked.specs.Devices.{device_of, has_failed};
ghost use Rattle.spec_http.specs.Connections.{longest_head, most_fields};
ghost use Rattle.http_client.specs.Heads.{BeginsWithNoHead};
ghost use Rattle.http_client.specs.Reading.{IsWatched, HasFound, IsFound, IfKnown};
ghost use Rattle.http_client.specs.declared.fault.ReplyFault.TheVariants as fault;

use crate::fault::ReplyFault;
use chunked::Watched;
use http_request_head::reading::LONGEST_HEAD;
use httparse::Status;
use httparse::spans::{HeaderSpan, ResponseSpans, parse_response};
use std::io::Read;

/// Reads a byte; none only at the end.
fn read_byte<R: Read + Drop>(reader: &mut Watched<R>) -> Result<Option<u8>, ReplyFault>
    requires { has_failed reader.old ≡ false }
    ensures read { IfOk result (λ b. MatchOption b
        (Consumes (R.remaining (device_of reader.old)) (R.remaining (device_of reader.new)) [] × IsAtEnd (R.remaining (device_of reader.new)))
        (λ x. Consumes (R.remaining (device_of reader.old)) (R.remaining (device_of reader.new)) (x ∷ []))) }
    ensures watched { IsWatched (has_failed reader.new) result }
    ensures fault { IfErr result (λ f. f ≡ fault.Device) }
{
    let mut byte = [0u8; 1];
    match reader.receive(&mut byte) {
        Ok(0) => Ok(None),
        Ok(_) => Ok(Some(byte[0])),
        Err(_) => Err(ReplyFault::Device),
    }
}

/// Returns where the parts of the head are that the bytes begin with; none where more has to follow.
fn look(bytes: &[u8], fields: &mut [HeaderSpan]) -> Result<Option<ResponseSpans>, ReplyFault>
    requires room { length fields.old ≡ most_fields }
    requires limit { length bytes.now ≤ longest_head }
    ensures found { IfOk result (λ found. MatchOption found (HasNoResponse bytes.now) (HasFound bytes.now fields.new)) }
    ensures none { IfErr result (λ f. ResponseOverflows most_fields bytes.now) }
    ensures fault { IfErr result (λ f. f ≡ fault.NotAReply) }
    ensures len { length fields.new ≡ length fields.old }
{
    match parse_response(bytes, fields) {
        Ok(Status::Complete(found)) => Ok(Some(found)),
        Ok(Status::Partial) => Ok(None),
        Err(_) => Err(ReplyFault::NotAReply),
    }
}

/// Reads a head onto `bytes`, and nothing beyond it, and returns where its parts are. It is looked at where a line ends. The reader is
/// read byte by byte: give one that is buffered.
pub(crate) fn find_head<R: Read + Drop>(
    reader: &mut Watched<R>,
    bytes: &mut Vec<u8>,
    fields: &mut [HeaderSpan],
) -> Result<ResponseSpans, ReplyFault>
    requires sound { has_failed reader.old ≡ false }
    requires room { length fields.old ≡ most_fields }
    requires empty { bytes.old.items ≡ [] }
    ensures found { IfOk result (IsFound bytes.new.items fields.new) }
    ensures read { OnOk result (Consumes (R.remaining (device_of reader.old)) (R.remaining (device_of reader.new)) bytes.new.items) }
    ensures room { IfErr result (λ f. f ≡ fault.TooLong → ⊥) }
    ensures none { IfErr result (λ f. f ≡ fault.NotAReply → IfKnown (R.remaining (device_of reader.old)) BeginsWithNoHead) }
    ensures watched { IsWatched (has_failed reader.new) result }
{
    while bytes.len() < LONGEST_HEAD {
        let byte = match read_byte(reader)? {
            Some(byte) => byte,
            None => return Err(ReplyFault::NotAReply),
        };
        bytes.push(byte)?;
        if byte == b'\n' {
            match look(bytes.as_slice(), fields) {
                Ok(Some(found)) => return Ok(found),
                Ok(None) => {}
                Err(fault) => return Err(fault),
            }
        }
    }
    Err(ReplyFault::NotAReply)
}
