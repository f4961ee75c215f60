//! Request lines that are read and answered by a session where nothing is there at first.
ghost use Rattle.std.specs.Prelude.{◌≡◌, OnOk, IfErr, IfSome, true};
ghost use Rattle.chunked.specs.Devices.{device_of, has_failed};
ghost use Rattle.spec_api.specs.Replies.{default_window};
ghost use Rattle.kcp_lines.specs.Replays.{AnswersAll, AnswersSome};

use chunked::Watched;
use line_service::RunFault;
use line_session::Session;
use std::alloc::Global;
use std::io::{BufRead, Write};

/// How many changes of each kind are recorded by default.
const DEFAULT_WINDOW: usize = 1024;

/// Answers the request lines that are read, from the empty store at the start of 2026 on, and writes the reply lines
/// and nothing else. Each reply is flushed before the next line is waited for. The last `window` changes of each kind
/// are recorded for watches and lists of earlier revisions.
///
/// A line for which there is no memory is answered 503, by a line that takes none, and changes nothing; sent again it may get its reply.
///
/// At an error no line after the one at which the error came is answered, and what those before it were answered was written whole.
/// Running out of memory is an error only where a line could not be read, or before the first; that the reader or the writer failed is one only
/// where its flag is up.
pub fn replay_with<R: BufRead + Drop, W: Write + Drop>(
    alloc: Global,
    window: usize,
    reader: &mut Watched<R>,
    writer: &mut Watched<W>,
) -> Result<(), RunFault>
    ensures ok { OnOk result (IfSome (R.remaining (device_of reader.old)) (AnswersAll window (W.contents (device_of writer.old)) (W.contents (device_of writer.new)))) }
    ensures ended { IfErr result (λ fault. IfSome (R.remaining (device_of reader.old)) (AnswersSome window fault (W.contents (device_of writer.old)) (W.contents (device_of writer.new)))) }
    ensures reader { IfErr result (λ fault. fault ≡ RunFault.Read → has_failed reader.new ≡ true) }
    ensures writer { IfErr result (λ fault. fault ≡ RunFault.Write → has_failed writer.new ≡ true) }
{
    match Session::new(alloc, window) {
        Ok(mut session) => line_service::run(alloc, &mut session, reader, writer),
        Err(_) => Err(RunFault::Want),
    }
}

/// Answers the request lines that are read as `replay_with` does, recording the last 1024 changes of each kind.
pub fn replay<R: BufRead + Drop, W: Write + Drop>(
    alloc: Global,
    reader: &mut Watched<R>,
    writer: &mut Watched<W>,
) -> Result<(), RunFault>
    ensures ok { OnOk result (IfSome (R.remaining (device_of reader.old)) (AnswersAll default_window (W.contents (device_of writer.old)) (W.contents (device_of writer.new)))) }
    ensures ended { IfErr result (λ fault. IfSome (R.remaining (device_of reader.old)) (AnswersSome default_window fault (W.contents (device_of writer.old)) (W.contents (device_of writer.new)))) }
    ensures reader { IfErr result (λ fault. fault ≡ RunFault.Read → has_failed reader.new ≡ true) }
    ensures writer { IfErr result (λ fault. fault ≡ RunFault.Write → has_failed writer.new ≡ true) }
{
    replay_with(alloc, DEFAULT_WINDOW, reader, writer)
}
