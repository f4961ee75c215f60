//! A server over a table of streams, of whose bytes no contract speaks.
use api_client::{Api, Connect, Opened, Remote};
use http_client::{Answer, More};
use lifecycle::DeleteOptions;
use object_keys::Key;
use request_parts::Request;
use spec_api::kinds::Kind;
use std::alloc::{AllocError, Global};
use std::io;
use std::io::ErrorKind;
use test_fixtures::{Source, TestSink};

const LIST: &[u8] = b"HTTP/1.1 200 OK\r\nContent-Length: 2\r\n\r\n{}";

const WATCH: &[u8] =
    b"HTTP/1.1 200 OK\r\nTransfer-Encoding: chunked\r\n\r\n8\r\n{\"a\":1}\n\r\n0\r\n\r\n";

const GONE: &[u8] = b"HTTP/1.1 410 Gone\r\nContent-Length: 2\r\n\r\n{}";

const TOO_NEW: &[u8] = b"HTTP/1.1 504 Gateway Timeout\r\nContent-Length: 2\r\n\r\n{}";

/// Gives these streams, one after another, and then no more.
#[derive(Drop)]
struct Table<'a> {
    alloc: Global,
    streams: &'a [&'a [u8]],
    next: usize,
}

impl<'a> Connect for Table<'a> {
    type Reader = Source<'a>;

    type Writer = TestSink;

    fn connect(&mut self) -> io::Result<(Source<'a>, TestSink)> {
        let next = self.next;
        self.next = next.saturating_add(1);
        match self.streams.get(next) {
            Some(&stream) => {
                let sink = TestSink {
                    written: Vec::new(self.alloc),
                    bad: u64::MAX,
                    kind: ErrorKind::BrokenPipe,
                    calls: 0,
                };
                Ok((Source::new(stream, 3), sink))
            }
            None => Err(io::Error::from(ErrorKind::ConnectionRefused)),
        }
    }

    fn connect_to_watch(&mut self) -> io::Result<(Source<'a>, TestSink)> {
        self.connect()
    }
}

/// Returns a server over these streams.
fn remote<'a>(alloc: Global, streams: &'a [&'a [u8]]) -> Remote<Table<'a>> {
    Remote::new(Table {
        alloc,
        streams,
        next: 0,
    })
}

/// Returns what became of a request, in a word.
fn word(answer: &Answer) -> &'static str {
    match answer {
        Answer::Replied(reply) if reply.code == 200 && reply.body.as_slice() == b"{}".as_slice() =>
            "replied",
        Answer::Replied(_) => "another reply",
        Answer::NotSent => "not sent",
        Answer::Lost => "lost",
    }
}

/// Returns a delete of a pod of this name.
fn delete(alloc: Global, name: &str) -> Result<Request, AllocError> {
    let key = Key {
        kind: Kind::Pod,
        namespace: String::from_str(alloc, "a")?,
        name: String::from_str(alloc, name)?,
    };
    let options = DeleteOptions {
        uid: None,
        version: None,
        policy: None,
    };
    Ok(Request::Delete(key, options))
}

/// Returns what becomes of a list, in a word.
fn listed<A: Api>(alloc: Global, server: &mut A, kind: Kind) -> &'static str {
    word(&server.list(alloc, kind))
}

/// Returns whether three lists are answered as they have to be.
fn are_listed<A: Api>(alloc: Global, server: &mut A) -> bool {
    let mut same = true;
    for wanted in ["replied", "lost", "another reply"] {
        same = same && listed(alloc, server, Kind::Deployment) == wanted;
    }
    same
}

/// Returns whether two requests for the first object at a revision are answered as they have to be.
fn are_looked_at<A: Api>(alloc: Global, server: &mut A) -> bool {
    let mut same = true;
    for wanted in ["replied", "another reply"] {
        same = same && word(&server.first_at(alloc, Kind::Pod, 7)) == wanted;
    }
    same
}

/// Returns what becomes of a delete of a pod of this name, in a word.
fn deleted<A: Api>(alloc: Global, server: &mut A, name: &str) -> Result<&'static str, AllocError> {
    let request = delete(alloc, name)?;
    Ok(word(&server.call(alloc, &request)))
}

/// Returns whether the delete of a pod that has no such name is not sent, and another is answered.
fn are_deleted<A: Api>(alloc: Global, server: &mut A) -> Result<bool, AllocError> {
    let is_kept = deleted(alloc, server, "a/b")? == "not sent";
    Ok(is_kept && deleted(alloc, server, "b")? == "replied")
}

/// Returns whether these requests, and a list over a connection that is refused, are answered as they have to be.
fn all_are_answered<A: Api>(alloc: Global, server: &mut A) -> Result<bool, AllocError> {
    let are_read = are_listed(alloc, server) && are_looked_at(alloc, server);
    let are_answered = are_read && are_deleted(alloc, server)?;
    Ok(are_answered && listed(alloc, server, Kind::Pod) == "not sent")
}

/// Returns whether requests, each over a connection of its own, are answered as they have to be.
fn are_answered(alloc: Global) -> Result<bool, AllocError> {
    let streams: [&[u8]; 6] = [LIST, &LIST[..LIST.len() - 1], GONE, LIST, GONE, LIST];
    all_are_answered(alloc, &mut remote(alloc, &streams))
}

#[test]
fn each_request_has_a_connection_of_its_own(rt: HostRuntime) {
    assert_eq!(rt; are_answered(rt.alloc()), Ok(true));
}

/// What becomes of five watches.
const OPENED: [Opened; 5] = [
    Opened::Expired,
    Opened::Refused {
        code: 504,
        retry_after: None,
    },
    Opened::Lost,
    Opened::Open,
    Opened::Lost,
];

/// Returns the first of these watches that does not open as it has to.
fn first_opened<A: Api>(alloc: Global, server: &mut A) -> Option<usize> {
    for (place, &opened) in OPENED.iter().enumerate() {
        if server.open_watch(alloc, Kind::Pod, 7) != opened {
            return Some(place);
        }
    }
    None
}

/// Returns the first of five watches, over four streams, that does not open as it has to.
fn first_unlike(alloc: Global) -> Option<usize> {
    let streams: [&[u8]; 4] = [GONE, TOO_NEW, &WATCH[..20], WATCH];
    first_opened(alloc, &mut remote(alloc, &streams))
}

#[test]
fn a_watch_is_opened_or_refused(rt: HostRuntime) {
    assert_eq!(rt; first_unlike(rt.alloc()), None);
}

/// Reads the watch that is open, and returns how it ended and how many bytes it gave.
fn read<A: Api>(server: &mut A) -> (More, usize) {
    let mut buf = [0u8; 5];
    let mut count = 0usize;
    for _ in 0..100 {
        match server.more(&mut buf) {
            More::Bytes(n) => count = count.saturating_add(n),
            last => return (last, count),
        }
    }
    (More::Bytes(0), count)
}

/// Opens a watch. Returns whether it opens, ends so, gives so many bytes and then no more, and a read of no bytes does not change that.
fn is_read<A: Api>(alloc: Global, server: &mut A, last: More, count: usize) -> bool {
    let is_open = server.open_watch(alloc, Kind::Pod, 7) == Opened::Open;
    let is_cut = server.more(&mut []) == More::Cut;
    is_open && is_cut && read(server) == (last, count) && read(server) == (last, 0)
}

/// Returns whether three watches are read to their ends, and nothing is read before the first, and after one that is not opened.
fn all_are_read<A: Api>(alloc: Global, server: &mut A) -> bool {
    let mut same = read(server) == (More::Cut, 0);
    for (last, count) in [(More::End, 8), (More::Cut, 6), (More::End, 8)] {
        same = same && is_read(alloc, server, last, count);
    }
    let is_lost = server.open_watch(alloc, Kind::Pod, 7) == Opened::Lost;
    same && is_lost && read(server) == (More::Cut, 0)
}

/// Returns the same of a server over three streams, of which the second is cut.
fn are_read(alloc: Global) -> bool {
    let streams: [&[u8]; 3] = [WATCH, &WATCH[..WATCH.len() - 9], WATCH];
    all_are_read(alloc, &mut remote(alloc, &streams))
}

#[test]
fn a_watch_is_read_until_it_ends_or_is_cut(rt: HostRuntime) {
    assert!(rt; are_read(rt.alloc()));
}
