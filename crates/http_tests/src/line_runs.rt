//! Runs over lines whose reader or writer fails in mid-stream, and when replies are flushed.
ghost use Rattle.std.specs.Prelude.{◌==◌, [], ◌∷◌, ◌++◌, length, None, if◌then◌else◌};

use chunked::Watched;
use line_service::{LineService, RunFault, run};
use std::alloc::{AllocError, Global};
use std::cell::Cell;
use std::io;
use std::io::{BufReader, ErrorKind, Read, Write};

/// Sends each line back, and answers an empty line with nothing; a poor one never has memory for a reply.
#[derive(Drop)]
struct Echo {
    is_poor: bool,
}

impl LineService for Echo {
    ghost reply = { λ _ line. (if length line == 0 then [] else line ++ 10 ∷ []) };

    ghost next = { λ s _. s };

    ghost refusal = { λ _. None };

    fn serve(&mut self, alloc: Global, line: &[u8]) -> Result<Vec<u8>, AllocError> {
        let mut text = Vec::new(alloc);
        if self.is_poor {
            return Err(AllocError);
        }
        if !line.is_empty() {
            text.extend_from_slice(line)?;
            text.push(b'\n')?;
        }
        Ok(text)
    }

    fn refused(&self, _line: &[u8]) -> Option<&'static [u8]> {
        None
    }
}

/// What a reader and a writer see of one another. No clause says when a writer is flushed, so that a flush left out
/// is still proved: the reader fails where a reply lies unflushed, and the calls are counted.
#[derive(Drop)]
struct Wire {
    unflushed: Cell<bool>,
    reads: Cell<u64>,
    flushes: Cell<u64>,
}

impl Wire {
    /// Returns one over which nothing went.
    fn new() -> Wire {
        Wire {
            unflushed: Cell::new(false),
            reads: Cell::new(0),
            flushes: Cell::new(0),
        }
    }
}

/// Gives a line at each read, and fails at the read of the line `bad`, with an error of this kind.
#[derive(Drop)]
struct Lines<'a> {
    bad: u64,
    kind: ErrorKind,
    wire: &'a Wire,
}

impl<'a> Read for Lines<'a> {
    fn read(&mut self, buf: &mut [u8]) -> io::Result<usize> {
        let read = self.wire.reads.get();
        self.wire.reads.set(read.saturating_add(1));
        if self.wire.unflushed.get() || read == self.bad {
            return Err(io::Error::from(self.kind));
        }
        let text = LINES.get(read as usize).copied().unwrap_or(b"");
        let len = text.len().min(buf.len());
        buf[..len].copy_from_slice(&text[..len]);
        Ok(len)
    }
}

/// Takes a byte at each write, and fails when it has taken `full` bytes.
#[derive(Drop)]
struct Narrow<'a> {
    taken: Vec<u8>,
    full: usize,
    wire: &'a Wire,
}

impl<'a> Write for Narrow<'a> {
    fn write(&mut self, buf: &[u8]) -> io::Result<usize> {
        if self.taken.len() == self.full {
            return Err(io::Error::from(ErrorKind::BrokenPipe));
        }
        let len = buf.len().min(1);
        self.taken.extend_from_slice(&buf[..len])?;
        self.wire.unflushed.set(true);
        Ok(len)
    }

    fn flush(&mut self) -> io::Result<()> {
        self.wire.unflushed.set(false);
        let flushes = self.wire.flushes.get();
        self.wire.flushes.set(flushes.saturating_add(1));
        Ok(())
    }
}

const LINES: [&[u8]; 4] = [b"ab\n", b"\n", b"c\n", b"de"];

/// A read or a byte that never comes.
const NEVER: u64 = u64::MAX;

/// At which line the reader fails and how, how many bytes the writer takes, and whether there is no memory for replies; then how the run
/// ends, and what was written.
type Run = (
    u64,
    ErrorKind,
    usize,
    bool,
    Result<(), RunFault>,
    &'static [u8],
);

const RUNS: [Run; 6] = [
    (
        NEVER,
        ErrorKind::BrokenPipe,
        1000,
        false,
        Ok(()),
        b"ab\nc\nde\n",
    ),
    (
        NEVER,
        ErrorKind::BrokenPipe,
        4,
        false,
        Err(RunFault::Write),
        b"ab\nc",
    ),
    (
        2,
        ErrorKind::BrokenPipe,
        1000,
        false,
        Err(RunFault::Read),
        b"ab\n",
    ),
    (
        2,
        ErrorKind::OutOfMemory,
        1000,
        false,
        Err(RunFault::Want),
        b"ab\n",
    ),
    (
        2,
        ErrorKind::UnexpectedEof,
        1000,
        false,
        Err(RunFault::Read),
        b"ab\n",
    ),
    (
        NEVER,
        ErrorKind::BrokenPipe,
        1000,
        true,
        Err(RunFault::Want),
        b"",
    ),
];

/// Returns whether a run over the lines ends as it says.
fn ends_so(alloc: Global, wire: &Wire, run_of: &Run) -> io::Result<bool> {
    let source = Lines {
        bad: run_of.0,
        kind: run_of.1,
        wire,
    };
    let mut reader = Watched::new(BufReader::new(alloc, source)?);
    let mut writer = Watched::new(Narrow {
        taken: Vec::new(alloc),
        full: run_of.2,
        wire,
    });
    let mut service = Echo { is_poor: run_of.3 };
    let outcome = run(alloc, &mut service, &mut reader, &mut writer);
    Ok(outcome == run_of.4 && writer.into_inner().taken.as_slice() == run_of.5)
}

/// Returns the first run that does not end as it says.
fn first_unlike(alloc: Global) -> Option<usize> {
    for (place, run_of) in RUNS.iter().enumerate() {
        if !matches!(ends_so(alloc, &Wire::new(), run_of), Ok(true)) {
            return Some(place);
        }
    }
    None
}

#[test]
fn runs_end_as_their_devices_do(rt: HostRuntime) {
    assert_eq!(rt; first_unlike(rt.alloc()), None);
}

/// Returns how often the replies of a whole run are flushed, and the lines read.
fn counts(alloc: Global) -> (u64, u64) {
    let wire = Wire::new();
    let _ = ends_so(alloc, &wire, &RUNS[0]);
    (wire.flushes.get(), wire.reads.get())
}

#[test]
fn each_reply_is_flushed_once(rt: HostRuntime) {
    assert_eq!(rt; counts(rt.alloc()), (3, 6));
}

/// What was written when the reader fails at each of its calls.
const AT_READS: [&[u8]; 6] = [
    b"",
    b"ab\n",
    b"ab\n",
    b"ab\nc\n",
    b"ab\nc\n",
    b"ab\nc\nde\n",
];

/// Returns the first call of a reader that fails there, after which a run does not end so, or wrote something else.
fn first_wrong_read(alloc: Global) -> Option<usize> {
    for (place, written) in AT_READS.iter().enumerate() {
        let run_of = (
            place as u64,
            ErrorKind::BrokenPipe,
            1000,
            false,
            Err(RunFault::Read),
            *written,
        );
        if !matches!(ends_so(alloc, &Wire::new(), &run_of), Ok(true)) {
            return Some(place);
        }
    }
    None
}

#[test]
fn a_reader_that_fails_at_any_call_ends_a_run(rt: HostRuntime) {
    assert_eq!(rt; first_wrong_read(rt.alloc()), None);
}

/// What a run writes.
const WHOLE: &[u8] = b"ab\nc\nde\n";

/// Returns the first number of bytes after which a writer fails, and a run does not end so, or wrote something else.
fn first_wrong_write(alloc: Global) -> Option<usize> {
    for full in 0..WHOLE.len() {
        let run_of = (
            NEVER,
            ErrorKind::BrokenPipe,
            full,
            false,
            Err(RunFault::Write),
            WHOLE.get(..full).unwrap_or(WHOLE),
        );
        if !matches!(ends_so(alloc, &Wire::new(), &run_of), Ok(true)) {
            return Some(full);
        }
    }
    None
}

#[test]
fn a_writer_that_fails_after_any_byte_ends_a_run(rt: HostRuntime) {
    assert_eq!(rt; first_wrong_write(rt.alloc()), None);
}
