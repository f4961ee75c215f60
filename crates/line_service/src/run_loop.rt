//! The loop that runs a service.
ghost use Rattle.std.specs.Prelude.{◌≡◌, ◌≢◌, ◌≤◌, [], OnOk, OnErr, IfErr, IfSome, vec_capacity, true};
ghost use Rattle.std.specs.Io.KnownBytes.{Appends};
ghost use Rattle.std.specs.Io.BufRead.{strip_last};
ghost use Rattle.chunked.specs.Devices.{AppendsBeginning, device_of, has_failed};
ghost use Rattle.chunked.specs.declared.fault.ChunkFault.TheVariants as chunk;
ghost use Rattle.line_service.specs.Replies.{AnswersAll, AnswersSome};

use crate::answer::take;
use crate::fault::RunFault;
use crate::service::LineService;
use chunked::{ChunkFault, Watched};
use std::alloc::Global;
use std::io::{BufRead, Write};

/// The bytes of memory that a line's buffer may keep for the next line.
const KEPT_CAPACITY: usize = 1 << 20;

/// Returns the bytes without a newline at their end.
pub fn without_newline(line: &[u8]) -> &[u8]
    ensures { result.now ≡ strip_last 10 line.now }
{
    let len = line.len();
    if len > 0 && line[len - 1] == b'\n' {
        &line[..len - 1]
    } else {
        line
    }
}

/// Returns why a line was not read: there was no memory for it, or the reader failed.
pub fn unread(fault: ChunkFault) -> RunFault
    ensures want { fault ≡ chunk.Want → result ≡ RunFault.Want }
    ensures read { fault ≢ chunk.Want → result ≡ RunFault.Read }
    ensures reader { result ≢ RunFault.Write }
{
    match fault {
        ChunkFault::Want => RunFault::Want,
        ChunkFault::Device | ChunkFault::Malformed | ChunkFault::Truncated => RunFault::Read,
    }
}

/// Empties the buffer for the next line, and gives the memory of a very long line back.
pub fn make_ready(line: &mut Vec<u8>)
    ensures empty { line.new.items ≡ [] }
    ensures small { vec_capacity line.new ≤ KEPT_CAPACITY }
{
    line.clear();
    if line.capacity() > KEPT_CAPACITY {
        line.shrink_to_fit();
    }
}

/// Writes a reply and flushes the writer; where the writer fails, or had failed before, a beginning of the reply was written. An empty reply
/// writes nothing and flushes nothing.
pub fn send<W: Write + Drop>(writer: &mut Watched<W>, reply: &[u8]) -> Result<(), RunFault>
    ensures ok { OnOk result (Appends (W.contents (device_of writer.old)) (W.contents (device_of writer.new)) reply.now) }
    ensures err { OnErr result (AppendsBeginning (W.contents (device_of writer.old)) (W.contents (device_of writer.new)) reply.now) }
    ensures failed { OnErr result (has_failed writer.new ≡ true) }
    ensures fault { IfErr result (λ fault. fault ≡ RunFault.Write) }
{
    if reply.is_empty() {
        return Ok(());
    }
    match writer.send(reply) {
        Ok(()) => Ok(()),
        Err(_) => Err(RunFault::Write),
    }
}

/// Answers each line that is read, to the end, and writes the replies and nothing else. Each reply that is not empty is flushed
/// before the next line is waited for. One line is in memory at a time, and its memory is used again for the next.
///
/// A line for which there is no memory is answered by the text that the service has for it, and changes nothing; where it has none, the run
/// ends there.
///
/// At an error a beginning of all the replies was written. The service has answered some of the lines, from the first
/// on, and no others; their replies were written whole, unless it was the writer that failed: then those of all but the
/// last were. That the reader or the writer failed is the error only where the flag of that one is up. More lines than can be counted,
/// 2^64, are taken for want of memory.
pub fn run<S: LineService, R: BufRead + Drop, W: Write + Drop>(
    alloc: Global,
    service: &mut S,
    reader: &mut Watched<R>,
    writer: &mut Watched<W>,
) -> Result<(), RunFault>
    ensures ok { OnOk result (IfSome (R.remaining (device_of reader.old))
        (AnswersAll S.reply S.next S.refusal service.old service.new (W.contents (device_of writer.old)) (W.contents (device_of writer.new)))) }
    ensures ended { IfErr result (λ fault. IfSome (R.remaining (device_of reader.old))
        (AnswersSome S.reply S.next S.refusal fault service.old service.new (W.contents (device_of writer.old)) (W.contents (device_of writer.new)))) }
    ensures reader { IfErr result (λ fault. fault ≡ RunFault.Read → has_failed reader.new ≡ true) }
    ensures writer { IfErr result (λ fault. fault ≡ RunFault.Write → has_failed writer.new ≡ true) }
{
    let mut line = Vec::new(alloc);
    for _ in 0..u64::MAX {
        make_ready(&mut line);
        let count = match reader.read_through(b'\n', &mut line) {
            Ok(n) => n,
            Err(fault) => return Err(unread(fault)),
        };
        if count == 0 {
            return Ok(());
        }
        let answer = take(alloc, service, without_newline(line.as_slice()))?;
        send(writer, answer.text())?;
    }
    Err(RunFault::Want)
}
