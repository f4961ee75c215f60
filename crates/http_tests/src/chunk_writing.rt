//! Chunks as they are written, and devices that fail or are interrupted.
use crate::chunk_reading::read_all;
use chunked::{ChunkFault, Reader, Watched, Writer};
use std::alloc::Global;
use std::io::{ErrorKind, Write};
use test_fixtures::{Source, TestSink};

/// What is written before the end, at which call the device fails and how, and whether it fails before; then what became of each call,
/// what was written, and how many calls were made.
#[derive(Clone, Copy)]
struct Writing {
    chunks: &'static [&'static [u8]],
    bad: u64,
    kind: ErrorKind,
    is_up: bool,
    outcome: Result<(), ChunkFault>,
    text: &'static [u8],
    calls: u64,
}

const WRITINGS: [Writing; 4] = [
    Writing {
        chunks: &[b"Wiki", b"pedia"],
        bad: 1,
        kind: ErrorKind::BrokenPipe,
        is_up: false,
        outcome: Err(ChunkFault::Device),
        text: b"4\r\nW",
        calls: 2,
    },
    Writing {
        chunks: &[],
        bad: 2,
        kind: ErrorKind::BrokenPipe,
        is_up: false,
        outcome: Err(ChunkFault::Device),
        text: b"0\r\n\r\n",
        calls: 3,
    },
    Writing {
        chunks: &[],
        bad: 2,
        kind: ErrorKind::Interrupted,
        is_up: false,
        outcome: Ok(()),
        text: b"0\r\n\r\n",
        calls: 4,
    },
    Writing {
        chunks: &[b"Wiki"],
        bad: 0,
        kind: ErrorKind::BrokenPipe,
        is_up: true,
        outcome: Err(ChunkFault::Device),
        text: b"",
        calls: 1,
    },
];

/// Writes the chunks and the end. Returns whether each call has this outcome.
fn all_are(
    alloc: Global,
    writer: &mut Writer<TestSink>,
    chunks: &[&[u8]],
    outcome: Result<(), ChunkFault>,
) -> bool {
    let mut all = true;
    for chunk in chunks {
        all = all && !chunk.is_empty() && writer.chunk(alloc, chunk) == outcome;
    }
    let is_so = writer.end() == outcome;
    all && is_so
}

/// Returns whether a writing ends as it says.
fn ends_so(alloc: Global, writing: &Writing) -> bool {
    let mut device = Watched::new(TestSink {
        written: Vec::new(alloc),
        bad: writing.bad,
        kind: writing.kind,
        calls: 0,
    });
    if writing.is_up {
        let _ = device.write(b"a");
    }
    let mut writer = Writer::new(device);
    let all = all_are(alloc, &mut writer, writing.chunks, writing.outcome);
    let is_told = writer.device.has_failed() == writing.outcome.is_err();
    let sink = writer.device.into_inner();
    all && is_told && sink.written.as_slice() == writing.text && sink.calls == writing.calls
}

/// Returns the first writing that does not end as it says.
fn first_unlike(alloc: Global) -> Option<usize> {
    for (place, writing) in WRITINGS.iter().enumerate() {
        if !ends_so(alloc, writing) {
            return Some(place);
        }
    }
    None
}

#[test]
fn nothing_is_written_after_a_failed_call(rt: HostRuntime) {
    assert_eq!(rt; first_unlike(rt.alloc()), None);
}

/// Writes two chunks, which are not empty, and the end. Returns what was written.
fn written(alloc: Global, first: &[u8], second: &[u8]) -> Result<Vec<u8>, ChunkFault> {
    let mut writer = Writer::new(Watched::new(Vec::new(alloc)));
    for chunk in [first, second] {
        if !chunk.is_empty() {
            writer.chunk(alloc, chunk)?;
        }
    }
    writer.end()?;
    Ok(writer.device.into_inner())
}

/// Returns whether this content, and no more, is read of a text.
fn is_read(text: &[u8], content: &[u8]) -> bool {
    let mut reader = Reader::new(Watched::new(Source::new(text, 7)));
    let found = read_all(&mut reader, 16, content);
    found.0.is_empty() && found.1 == Ok(0)
}

/// Returns whether chunks are written with their sizes in lower case, and read back, also where one reads as an end.
fn is_read_back(alloc: Global) -> Result<bool, ChunkFault> {
    let text = written(alloc, b"Wiki", b"a text of 27 bytes in total")?;
    let wanted: &[u8] = b"4\r\nWiki\r\n1b\r\na text of 27 bytes in total\r\n0\r\n\r\n";
    let end = written(alloc, &[7; 300], b"\r\n0\r\n")?;
    let mut content = [7; 305];
    content[300..].copy_from_slice(b"\r\n0\r\n");
    Ok(text.as_slice() == wanted && is_read(end.as_slice(), &content))
}

#[test]
fn what_was_written_is_read_back(rt: HostRuntime) {
    assert_eq!(rt; is_read_back(rt.alloc()), Ok(true));
}
