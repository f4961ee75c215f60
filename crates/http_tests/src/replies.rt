//! Replies over readers of whose bytes no contract speaks.
use chunked::Watched;
use http_client::{LARGEST_BODY, ReplyFault, read_reply, read_whole};
use std::alloc::Global;
use std::io::ErrorKind;
use test_fixtures::Source;

/// What a server writes for an object that is not there, and what follows it.
const REFUSAL: &[u8] =
    b"HTTP/1.1 404 Not Found\r\nContent-Type: application/json\r\nContent-Length: 16\r\nConnection: close\r\n\r\n{\"kind\":\"Status\"}rest";

/// How many bytes follow it.
const REST: usize = 5;

/// A list as a server of Kubernetes writes it, in chunks.
const LIST: &[u8] =
    b"HTTP/1.1 200 OK\r\nContent-Type: application/json\r\nTransfer-Encoding: chunked\r\n\r\n4\r\n{\"it\r\n9\r\nems\":[]}\n\r\n0\r\n\r\n";

/// Heads that state two lengths, a length which no memory has room for, one beyond the limit, and more than comes; and the fault of each.
const LENGTHS: [(&[u8], ReplyFault); 4] = [
    (
        b"HTTP/1.1 200 OK\r\nContent-Length: 1\r\nContent-Length: 1\r\n\r\na",
        ReplyFault::NotAReply,
    ),
    (
        b"HTTP/1.1 200 OK\r\nContent-Length: 99999999999999999999999999\r\n\r\na",
        ReplyFault::TooLong,
    ),
    (
        b"HTTP/1.1 200 OK\r\nContent-Length: 67108865\r\n\r\na",
        ReplyFault::TooLong,
    ),
    (
        b"HTTP/1.1 200 OK\r\nContent-Length: 67108864\r\n\r\na",
        ReplyFault::NotAReply,
    ),
];

/// Refusals that ask for patience, or not, and for how many seconds (RFC 9110, Retry-After): a date is not understood, and the first field counts.
const WAITS: [(&[u8], Option<u16>); 8] = [
    (
        b"HTTP/1.1 429 Too Many Requests\r\nRetry-After: 120\r\nContent-Length: 0\r\n\r\n",
        Some(120),
    ),
    (
        b"HTTP/1.1 503 Service Unavailable\r\nContent-Length: 0\r\nretry-after:0\r\n\r\n",
        Some(0),
    ),
    (
        b"HTTP/1.1 429 Too Many Requests\r\nRETRY-AFTER: 99999999999999999999999999\r\nContent-Length: 0\r\n\r\n",
        Some(3600),
    ),
    (
        b"HTTP/1.1 429 Too Many Requests\r\nRetry-After: Fri, 31 Dec 1999 23:59:59 GMT\r\nContent-Length: 0\r\n\r\n",
        None,
    ),
    (
        b"HTTP/1.1 429 Too Many Requests\r\nRetry-After: -1\r\nContent-Length: 0\r\n\r\n",
        None,
    ),
    (
        b"HTTP/1.1 429 Too Many Requests\r\nRetry-After:\r\nContent-Length: 0\r\n\r\n",
        None,
    ),
    (
        b"HTTP/1.1 429 Too Many Requests\r\nRetry-After: 3601\r\nRetry-After: 1\r\nContent-Length: 0\r\n\r\n",
        Some(3600),
    ),
    (
        b"HTTP/1.1 429 Too Many Requests\r\nContent-Length: 0\r\n\r\n",
        None,
    ),
];

/// Returns the code and the length of the body of the reply that a source gives, and how many bytes are left.
fn reply(alloc: Global, source: Source<'_>) -> Result<(u16, usize, usize), ReplyFault> {
    let mut reader = Watched::new(source);
    let reply = read_reply(alloc, &mut reader, LARGEST_BODY)?;
    Ok((reply.code, reply.body.len(), reader.into_inner().left.len()))
}

/// Returns the code and the length of the body of the reply that a source gives, in chunks or not, of so many bytes at most.
fn within(alloc: Global, source: Source<'_>, most: u32) -> Result<(u16, usize), ReplyFault> {
    let reply = read_whole(alloc, Watched::new(source), most)?;
    Ok((reply.code, reply.body.len()))
}

/// The same with the usual limit.
fn whole(alloc: Global, source: Source<'_>) -> Result<(u16, usize), ReplyFault> {
    within(alloc, source, LARGEST_BODY)
}

/// Returns the first size of the pieces in which the refusal or the list is not read.
fn first_unread(alloc: Global) -> Option<usize> {
    for most in 1..REFUSAL.len() {
        let is_read = reply(alloc, Source::new(REFUSAL, most)) == Ok((404, 16, REST))
            && whole(alloc, Source::new(REFUSAL, most)) == Ok((404, 16))
            && whole(alloc, Source::new(LIST, most)) == Ok((200, 13));
        if !is_read {
            return Some(most);
        }
    }
    None
}

#[test]
fn a_reply_is_read_in_any_pieces(rt: HostRuntime) {
    assert_eq!(rt; first_unread(rt.alloc()), None);
}

/// Returns the first length at which the refusal or the list is cut and is a reply all the same.
fn first_accepted(alloc: Global) -> Option<usize> {
    let none = ReplyFault::NotAReply;
    for len in 0..REFUSAL.len() - REST {
        let cut = Source::new(&REFUSAL[..len], 7);
        let list = Source::new(&LIST[..len.min(LIST.len() - 1)], 7);
        if reply(alloc, cut) != Err(none) || whole(alloc, list) != Err(none) {
            return Some(len);
        }
    }
    None
}

#[test]
fn a_reply_that_is_cut_is_none(rt: HostRuntime) {
    assert_eq!(rt; first_accepted(rt.alloc()), None);
}

/// Returns the first of the lengths that is believed.
fn first_believed(alloc: Global) -> Option<usize> {
    for (place, &(text, fault)) in LENGTHS.iter().enumerate() {
        let first = reply(alloc, Source::new(text, 100));
        let second = whole(alloc, Source::new(text, 100));
        if first != Err(fault) || second != Err(fault) {
            return Some(place);
        }
    }
    None
}

#[test]
fn lengths_are_not_believed(rt: HostRuntime) {
    assert_eq!(rt; first_believed(rt.alloc()), None);
}

/// Returns the first limit at which the refusal, whose body has 16 bytes, or the list, whose body has 13, is not refused or read as it has to
/// be.
fn first_beyond(alloc: Global) -> Option<u32> {
    let long = Err(ReplyFault::TooLong);
    for most in 0..20 {
        let refusal = if most < 16 { long } else { Ok((404, 16)) };
        let list = if most < 13 { long } else { Ok((200, 13)) };
        let is_kept = within(alloc, Source::new(REFUSAL, 7), most) == refusal
            && within(alloc, Source::new(LIST, 7), most) == list;
        if !is_kept {
            return Some(most);
        }
    }
    None
}

#[test]
fn a_longer_body_than_the_limit_is_refused(rt: HostRuntime) {
    assert_eq!(rt; first_beyond(rt.alloc()), None);
}

/// Returns what is read of the refusal, a byte a call, from a reader that fails in this way at this call.
fn failing(alloc: Global, bad: u64, kind: ErrorKind) -> Result<(u16, usize, usize), ReplyFault> {
    let mut source = Source::new(REFUSAL, 1);
    source.bad = bad;
    source.kind = kind;
    reply(alloc, source)
}

/// Returns the first call whose failure is not the reader's, or whose interruption is one.
fn first_unlike(alloc: Global) -> Option<u64> {
    for bad in 0..20 {
        let failed = failing(alloc, bad, ErrorKind::BrokenPipe);
        let interrupted = failing(alloc, bad, ErrorKind::Interrupted);
        if failed != Err(ReplyFault::Device) || interrupted != Ok((404, 16, REST)) {
            return Some(bad);
        }
    }
    None
}

#[test]
fn failures_are_the_readers_and_interruptions_are_none(rt: HostRuntime) {
    assert_eq!(rt; first_unlike(rt.alloc()), None);
}

/// Returns the first of the refusals that is not read to ask for as much patience as it does.
fn first_misread(alloc: Global) -> Option<usize> {
    for (place, &(text, seconds)) in WAITS.iter().enumerate() {
        match read_whole(alloc, Watched::new(Source::new(text, 100)), LARGEST_BODY) {
            Ok(reply) if reply.retry_after == seconds => {}
            Ok(_) => return Some(place),
            Err(_) => return Some(place),
        }
    }
    None
}

#[test]
fn patience_is_read(rt: HostRuntime) {
    assert_eq!(rt; first_misread(rt.alloc()), None);
}
