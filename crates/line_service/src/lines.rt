//! The lines by which a session replies: statuses, texts, and what watches are shown.
ghost use Rattle.std.specs.Prelude.{◌≡◌, ◌≢◌, ◌++◌, ◌∷◌, [], IfOk, OnOk, None, codes, map, decimal, string_bytes};
ghost use Rattle.spec_api.specs.Frames.{frame_text};
ghost use Rattle.spec_line_protocol.specs.Lines.{line_text, reply_text};
ghost use Rattle.spec_api.specs.Replies.{outcome, shown};
ghost use Rattle.spec_api.specs.Refusals.{success_body};
ghost use Rattle.spec_api.specs.Streams.{event as change, frame_of, text_of_lines, added_lines};
ghost use Rattle.spec_api.specs.Verbs.{refused};
ghost use Rattle.spec_api.specs.WatchReplies.{opening_lines};
ghost use Rattle.object_keys.specs.Faults.{refusal_of};
ghost use Rattle.meta.specs.Members.{member_of};
ghost use Rattle.object_keys.specs.declared.fault.Fault.TheVariants as faults;
ghost use Rattle.revisions.specs.Events.{event_seen};
ghost use Rattle.revisions.specs.Watches.{last_bookmark};
ghost use Rattle.line_service.specs.Shown.{line_seen};

use meta::Member;
use object_keys::Fault;
use reply::Reply;
use revisions::Event;
use spec_api::kinds::Kind;
use std::alloc::{AllocError, Global};

/// A line that a watch is shown.
#[derive(Clone, Copy)]
enum Shown<'a> {
    /// What a write changed.
    Change(&'a Event),
    /// The revision that the watch has reached.
    Bookmark(u64),
    /// An object that is there as the watch begins.
    Initial(Member<'a>),
    /// The revision at which the objects that are there end.
    InitialEnd(u64),
}

/// How many bytes a reply line has more than its text: a code's five digits at the most, the space and the end of the line.
const MOST_ADDED: usize = 7;

/// Returns a code, a space, a text and the end of the line.
pub fn line(alloc: Global, code: u16, text: &str) -> Result<Vec<u8>, AllocError>
    ensures { IfOk result (λ l. l.items ≡ decimal code ++ (32 ∷ (text.now ++ 10 ∷ []))) }
{
    let digits = code.to_string(alloc)?;
    let mut line = Vec::with_capacity(alloc, text.len().saturating_add(MOST_ADDED))?;
    line.extend_from_slice(digits.as_bytes())?;
    line.push(b' ')?;
    line.extend_from_slice(text.as_bytes())?;
    line.push(b'\n')?;
    Ok(line)
}

/// Returns the line that refuses a request.
pub fn refusal_line(alloc: Global, fault: &Fault) -> Result<Vec<u8>, AllocError>
    ensures { IfOk result (λ l. l.items ≡ reply_text (outcome (refused (refusal_of fault.now)))) }
{
    let reply = Reply::refusal(alloc, fault)?;
    line(alloc, reply.code, reply.text.as_str())
}

/// Returns the line that refuses what a fault refuses. Running out of memory is no refusal, and stays an error.
pub fn fault_line(alloc: Global, fault: &Fault) -> Result<Vec<u8>, AllocError>
    ensures text { IfOk result (λ l. l.items ≡ reply_text (outcome (refused (refusal_of fault.now)))) }
    ensures memory { IfOk result (λ l. fault.now ≢ faults.NoMemory) }
{
    match fault {
        Fault::NoMemory => Err(AllocError),
        _ => refusal_line(alloc, fault),
    }
}

/// Returns the line of a success that answers no object.
pub fn success_line(alloc: Global) -> Result<Vec<u8>, AllocError>
    ensures { IfOk result (λ l. l.items ≡ line_text 200 (success_body None)) }
{
    let text = reply::success_text(alloc, None)?;
    line(alloc, 200, text.as_str())
}

/// Returns the text of a line of a watch of a kind.
fn shown_text(alloc: Global, kind: Kind, shown: Shown<'_>) -> Result<String, AllocError>
    ensures { IfOk result (λ t. string_bytes t ≡ frame_text (frame_of kind (line_seen shown.entry))) }
{
    match shown {
        Shown::Change(event) => framing::frame_text(alloc, event),
        Shown::Bookmark(revision) => framing::bookmark_text(alloc, kind, false, revision),
        Shown::Initial(member) => framing::added_text(alloc, member.object),
        Shown::InitialEnd(revision) => framing::bookmark_text(alloc, kind, true, revision),
    }
}

/// Adds a line of a watch of a kind.
fn push_shown(
    alloc: Global,
    kind: Kind,
    shown: Shown<'_>,
    text: &mut Vec<u8>,
) -> Result<(), AllocError>
    ensures { OnOk result (text.new.items ≡ text.old.items ++ frame_text (frame_of kind (line_seen shown.entry))) }
{
    let line = shown_text(alloc, kind, shown)?;
    text.extend_from_slice(line.as_bytes())?;
    Ok(())
}

/// Adds the lines of changes.
fn push_changes(
    alloc: Global,
    kind: Kind,
    events: &[Event],
    text: &mut Vec<u8>,
) -> Result<(), AllocError>
    ensures { OnOk result (text.new.items ≡ text.old.items ++ text_of_lines kind (map change (map event_seen events.now))) }
{
    for event in events {
        push_shown(alloc, kind, Shown::Change(event), text)?;
    }
    Ok(())
}

/// Adds the lines of objects that are there.
fn push_members(
    alloc: Global,
    kind: Kind,
    members: &[Member<'_>],
    text: &mut Vec<u8>,
) -> Result<(), AllocError>
    ensures { OnOk result (text.new.items ≡ text.old.items ++ text_of_lines kind (added_lines (map member_of members.now))) }
{
    for member in members {
        push_shown(alloc, kind, Shown::Initial(*member), text)?;
    }
    Ok(())
}

/// Returns the line that says how many lines of a watch follow.
fn count_line(alloc: Global, count: usize) -> Result<Vec<u8>, AllocError>
    ensures { IfOk result (λ l. l.items ≡ codes "200 watch " ++ (decimal count ++ 10 ∷ [])) }
{
    let digits = count.to_string(alloc)?;
    let mut line = Vec::new(alloc);
    line.extend_from_slice(b"200 watch ")?;
    line.extend_from_slice(digits.as_bytes())?;
    line.push(b'\n')?;
    Ok(line)
}

/// Returns the lines of a watch that shows changes and then, if it is to, a bookmark.
pub fn change_lines(
    alloc: Global,
    kind: Kind,
    events: &[Event],
    bookmark: Option<u64>,
) -> Result<Vec<u8>, AllocError>
    ensures { IfOk result (λ l. l.items
        ≡ reply_text (shown kind (map change (map event_seen events.now) ++ last_bookmark bookmark))) }
{
    match bookmark {
        None => {
            let mut text = count_line(alloc, events.len())?;
            push_changes(alloc, kind, events, &mut text)?;
            Ok(text)
        }
        Some(revision) => {
            let mut text = count_line(alloc, events.len() + 1)?;
            push_changes(alloc, kind, events, &mut text)?;
            push_shown(alloc, kind, Shown::Bookmark(revision), &mut text)?;
            Ok(text)
        }
    }
}

/// Returns the lines of a watch that shows what is there.
pub fn initial_lines(
    alloc: Global,
    kind: Kind,
    members: &[Member<'_>],
) -> Result<Vec<u8>, AllocError>
    ensures { IfOk result (λ l. l.items ≡ reply_text (shown kind (added_lines (map member_of members.now)))) }
{
    let mut text = count_line(alloc, members.len())?;
    push_members(alloc, kind, members, &mut text)?;
    Ok(text)
}

/// Returns the lines of a watch that begins with initial events: what is there and then, if bookmarks are shown, the one that
/// closes it.
pub fn opening_lines(
    alloc: Global,
    kind: Kind,
    bookmarks: bool,
    members: &[Member<'_>],
    revision: u64,
) -> Result<Vec<u8>, AllocError>
    ensures { IfOk result (λ l. l.items
        ≡ reply_text (shown kind (opening_lines bookmarks revision (map member_of members.now)))) }
{
    if !bookmarks {
        return initial_lines(alloc, kind, members);
    }
    let mut text = count_line(alloc, members.len() + 1)?;
    push_members(alloc, kind, members, &mut text)?;
    push_shown(alloc, kind, Shown::InitialEnd(revision), &mut text)?;
    Ok(text)
}
