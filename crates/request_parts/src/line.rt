//! Lines of a replay.
ghost use Rattle.std.specs.Prelude.{◌≡◌, codes, option_map, if◌then◌else◌};
ghost use Rattle.std.specs.Str.{bytes_eq};
ghost use Rattle.spec_line_protocol.specs.Lines.{cut, ask_if, target_alone, target_and_body, compact_at, line_of, at, unreadable};
ghost use Rattle.spec_api.specs.Moments.{is_moment};
ghost use Rattle.spec_api.specs.Revisions.{revision_of};
ghost use Rattle.request_parts.specs.Lines.{both_now, line_seen};

use metadata_values::moments::Moment;
use metadata_values::revisions::read_revision;
use spec_api::methods::Method;

/// What a line says.
#[derive(Clone, Copy)]
pub enum Line<'l> {
    /// A request: its method, its target, which is not empty, and its body.
    Ask {
        method: Method,
        target: &'l [u8],
        body: &'l [u8],
    },
    /// From here on it is this moment.
    At(Moment),
    /// What happened up to this revision is compacted.
    Compact(u64),
    /// Anything else.
    Unreadable,
}

/// Returns what stands before and after the first space, if there is one.
fn cut<'l>(line: &'l [u8]) -> Option<(&'l [u8], &'l [u8])>
    ensures { option_map both_now result ≡ cut line.now }
{
    for (i, byte) in line.iter().enumerate() {
        if *byte == b' ' {
            let (before, rest) = line.split_at(i);
            return Some((before, rest.split_at(1).1));
        }
    }
    None
}

fn is(word: &[u8], text: &str) -> bool
    ensures { result ≡ bytes_eq word.now text.now }
{
    word == text.as_bytes()
}

/// Returns the line of a request, whose target may not be empty.
fn ask<'l>(method: Method, target: &'l [u8], body: &'l [u8]) -> Line<'l>
    ensures { line_seen result ≡ ask_if method target.now body.now }
{
    if target.is_empty() {
        return Line::Unreadable;
    }
    Line::Ask {
        method,
        target,
        body,
    }
}

/// Returns the line of a request, of `{target}` or `{target} {body}`.
fn target_alone<'l>(method: Method, rest: &'l [u8]) -> Line<'l>
    ensures { line_seen result ≡ target_alone method rest.now (cut rest.now) }
{
    match cut(rest) {
        Some((target, body)) => ask(method, target, body),
        None => ask(method, rest, &[]),
    }
}

/// Returns the line of a request, of `{target} {body}`.
fn target_and_body<'l>(method: Method, rest: &'l [u8]) -> Line<'l>
    ensures { line_seen result ≡ target_and_body method (cut rest.now) }
{
    match cut(rest) {
        Some((target, body)) => ask(method, target, body),
        None => Line::Unreadable,
    }
}

/// Returns the line that sets the moment, of `{moment}`.
fn moment<'l>(rest: &'l [u8]) -> Line<'l>
    ensures { line_seen result ≡ (if is_moment rest.now then at rest.now else unreadable) }
{
    match Moment::parse(rest) {
        Some(moment) => Line::At(moment),
        None => Line::Unreadable,
    }
}

/// Returns the line of a compaction, of `{revision}`.
fn compact<'l>(rest: &'l [u8]) -> Line<'l>
    ensures { line_seen result ≡ compact_at (revision_of rest.now) }
{
    match str::from_utf8(rest) {
        Ok(text) => match read_revision(text) {
            Some(revision) => Line::Compact(revision),
            None => Line::Unreadable,
        },
        Err(_) => Line::Unreadable,
    }
}

/// Returns what a line says, without the newline at its end.
pub fn read_line<'l>(line: &'l [u8]) -> Line<'l>
    ensures { line_seen result ≡ line_of line.now }
{
    match cut(line) {
        Some((word, rest)) => {
            if is(word, "GET") {
                target_alone(Method::Get, rest)
            } else if is(word, "DELETE") {
                target_alone(Method::Delete, rest)
            } else if is(word, "POST") {
                target_and_body(Method::Post, rest)
            } else if is(word, "PUT") {
                target_and_body(Method::Put, rest)
            } else if is(word, "PATCH") {
                target_and_body(Method::Patch, rest)
            } else if is(word, "AT") {
                moment(rest)
            } else if is(word, "COMPACT") {
                compact(rest)
            } else {
                Line::Unreadable
            }
        }
        None => Line::Unreadable,
    }
}
