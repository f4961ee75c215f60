//! Whether a server is still the one that was followed, by the first object that it had at a revision.
ghost use Rattle.std.specs.Prelude.{◌≡◌, Some, IfOk, option_map};
ghost use Rattle.spec_client_go.specs.Reflectors.{list_of};
ghost use Rattle.reflector.specs.Deltas.{delta_of};
ghost use Rattle.list_and_watch.specs.Listed.{listed_in, listed_of};
ghost use Rattle.list_and_watch.specs.Recognized.{agrees, by_code, has, by_list, by_reply, is_refusal, recognized};

use crate::sameness::is_same_write;
use framing::Want;
use http_client::statuses::{GATEWAY_TIMEOUT, OK, TOO_MANY_REQUESTS};
use http_client::{Answer, HttpReply};
use indexer::Indexed;
use meta::Object;
use reflector::identities::key_of;
use reflector::{Delta, ListFault, Reflector, SharedObject};
use spec_api::kinds::Kind;
use std::alloc::{AllocError, Global};

/// What a server's answer says of whether it is the one that was followed.
#[derive(Clone, Copy)]
pub enum Recognized {
    /// It is.
    Same,
    /// It is another one.
    Other,
    /// It does not know the revision: a list will tell.
    Unknown,
    /// It has not said so yet.
    Unanswered,
}

/// A list that was read: its revision, and its objects.
#[derive(Drop)]
struct Listed {
    revision: u64,
    objects: Vec<SharedObject>,
}

/// Returns the list that a delta takes the place of all by.
fn listed_in(delta: Delta) -> Option<Listed>
    ensures { option_map listed_of result ≡ listed_in (delta_of delta) }
{
    match delta {
        Delta::Replace(revision, objects) => Some(Listed { revision, objects }),
        Delta::Put(_) | Delta::Remove(_, _) | Delta::Mark(_) => None,
    }
}

/// Returns the list of a kind that a body has, if it has one.
fn read_list(alloc: Global, kind: Kind, body: &[u8]) -> Result<Option<Listed>, Want>
    ensures { IfOk result (λ found. option_map listed_of found ≡ list_of kind body.now) }
{
    match Reflector::new(alloc, kind).on_list(alloc, body) {
        Ok(delta) => Ok(listed_in(delta)),
        Err(ListFault::Unreadable) => Ok(None),
        Err(ListFault::Want) => Err(Want),
    }
}

/// Returns whether a copy has an object under its name, as the same write left it.
fn has(alloc: Global, copy: &Indexed, object: &Object) -> Result<bool, AllocError>
    ensures { IfOk result (λ b. b ≡ has object.now copy.now.members) }
{
    let key = key_of(alloc, object)?;
    match copy.get(&key) {
        Some(found) => Ok(is_same_write(object, found)),
        None => Ok(false),
    }
}

/// Returns whether a copy has the first of the objects of a list, or neither has any.
fn agrees(alloc: Global, copy: &Indexed, listed: &[SharedObject]) -> Result<bool, AllocError>
    ensures { IfOk result (λ b. b ≡ agrees listed.now copy.now.members) }
{
    match listed.first() {
        Some(first) => has(alloc, copy, first.object()),
        None => Ok(copy.len() == 0),
    }
}

/// Returns what a list says of who gave it.
fn by_list(
    alloc: Global,
    revision: u64,
    copy: &Indexed,
    listed: &Listed,
) -> Result<Recognized, AllocError>
    ensures { IfOk result (λ r. r ≡ by_list revision copy.now.members (Some (listed_of listed.now))) }
{
    if listed.revision != revision {
        return Ok(Recognized::Unknown);
    }
    if agrees(alloc, copy, listed.objects.as_slice())? {
        Ok(Recognized::Same)
    } else {
        Ok(Recognized::Other)
    }
}

/// Returns whether a status code refuses what was asked, and not for now alone: where a first object is refused so, a list is asked for.
pub fn is_refusal(code: u16) -> bool
    ensures { result ≡ is_refusal code }
{
    (400..500).contains(&code) && code != TOO_MANY_REQUESTS || code == GATEWAY_TIMEOUT
}

/// Returns what a status code other than 200 says of who answered with it.
fn by_code(code: u16) -> Recognized
    ensures { result ≡ by_code code }
{
    if is_refusal(code) {
        Recognized::Unknown
    } else {
        Recognized::Unanswered
    }
}

/// Returns what a reply says of who gave it.
fn by_reply(
    alloc: Global,
    kind: Kind,
    revision: u64,
    copy: &Indexed,
    reply: &HttpReply,
) -> Result<Recognized, Want>
    ensures { IfOk result (λ r. r ≡ by_reply kind revision copy.now.members reply.now) }
{
    if reply.code != OK {
        return Ok(by_code(reply.code));
    }
    match read_list(alloc, kind, &reply.body)? {
        Some(listed) => Ok(by_list(alloc, revision, copy, &listed)?),
        None => Ok(Recognized::Unanswered),
    }
}

/// Returns what is said by the answer to who asked for the first object of a kind at a revision, and has this copy at that revision. The error
/// is running out of memory.
pub fn recognize(
    alloc: Global,
    kind: Kind,
    revision: u64,
    copy: &Indexed,
    answer: &Answer,
) -> Result<Recognized, Want>
    ensures { IfOk result (λ r. r ≡ recognized kind revision copy.now.members answer.now) }
{
    match answer {
        Answer::Replied(reply) => by_reply(alloc, kind, revision, copy, reply),
        Answer::NotSent | Answer::Lost => Ok(Recognized::Unanswered),
    }
}
