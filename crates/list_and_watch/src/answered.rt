//! What a follower makes of what a server answers.
ghost use Rattle.std.specs.Prelude.{◌≡◌, OnOk, OnErr, IfErr, IsSome, option_map};
ghost use Rattle.list_and_watch.specs.Followers.{after_list};
ghost use Rattle.api_client.specs.Exchanges.{piece_in};
ghost use Rattle.list_and_watch.specs.Answered.{body_in, is_left_open, listed_in, RefusesAnswer, after_opened, is_refusal_of_streams, leads_to_list, after_stream_opened, IsPieceTaken};

use crate::follower::Follower;
use crate::recognizing::is_refusal;
use crate::tries::Piece;
use api_client::Opened;
use http_client::statuses::{
    BAD_REQUEST, FIRST_SERVER_ERROR, NOT_IMPLEMENTED, OK, TOO_MANY_REQUESTS, UNPROCESSABLE_CONTENT,
};
use http_client::{Answer, More};
use plain_informer::Publishing;
use reflector::ListFault;
use std::alloc::Global;

/// Returns whether a status code is one by which servers refuse streams of initial events that they do not know: a list is asked for in their place,
/// and nothing is wrong.
pub fn is_refusal_of_streams(code: u16) -> bool
    ensures { result ≡ is_refusal_of_streams code }
{
    code == BAD_REQUEST || code == UNPROCESSABLE_CONTENT
}

/// Returns whether a status code refuses a stream of initial events, and not for now alone, so that a list is asked for next: a stream that is asked
/// for again could be refused for ever.
fn leads_to_list(code: u16) -> bool
    ensures { result ≡ leads_to_list code }
{
    code < FIRST_SERVER_ERROR && code != TOO_MANY_REQUESTS || code == NOT_IMPLEMENTED
}

/// Returns the bytes that came, at the front of the buffer, if some did.
pub(crate) fn piece_in(more: More, buffer: &[u8]) -> Option<&[u8]>
    ensures { option_map (λ p. p.now) result ≡ piece_in more buffer.entry.now }
{
    match more {
        More::Bytes(n) => buffer.get(..n),
        More::End | More::Cut => None,
    }
}

/// Returns the body of a reply that has the status 200.
pub(crate) fn body_in(answer: &Answer) -> Option<&[u8]>
    ensures { option_map (λ s. s.now) result ≡ body_in answer.now }
{
    match answer {
        Answer::Replied(reply) if reply.code == OK => Some(&reply.body),
        Answer::Replied(_) | Answer::NotSent | Answer::Lost => None,
    }
}

/// Returns whether it may be another server that is asked next: nothing was answered, or what is refused for now.
pub(crate) fn is_left_open(opened: Opened) -> bool
    ensures { result ≡ is_left_open opened }
{
    match opened {
        Opened::Open | Opened::Expired => false,
        Opened::Refused { code, .. } => !is_refusal(code),
        Opened::Lost => true,
    }
}

impl<I: Publishing> Follower<I> {
    /// Takes in what became of the request for a list. The error is that no list was answered, or running out of memory; it changes nothing.
    pub(crate) fn on_answer(&mut self, alloc: Global, answer: &Answer) -> Result<(), ListFault>
        ensures ok { OnOk result (self.new ≡ after_list (listed_in self.old.reflector.kind answer.now) self.old) }
        ensures listed { OnOk result (IsSome (listed_in self.old.reflector.kind answer.now)) }
        ensures refused { IfErr result (RefusesAnswer self.old.reflector.kind answer.now) }
        ensures err { OnErr result (self.new ≡ self.old) }
    {
        match answer {
            Answer::Replied(reply) => {
                if reply.code == OK {
                    self.on_listed(alloc, &reply.body)
                } else {
                    Err(ListFault::Unreadable)
                }
            }
            Answer::NotSent | Answer::Lost => Err(ListFault::Unreadable),
        }
    }

    /// Takes in what became of the request for a watch. It begins with nothing of a frame. Where what it was to begin after is no longer known, or it is
    /// refused, a list is asked for next; where it is lost, or the server asks for patience, the same watch.
    pub(crate) fn on_opened(&mut self, opened: Opened)
        ensures { self.new ≡ after_opened opened self.old }
    {
        match opened {
            Opened::Open => self.on_cut(),
            Opened::Lost => {}
            Opened::Expired => self.on_expired(),
            Opened::Refused { code, .. } => {
                if code != TOO_MANY_REQUESTS {
                    self.on_expired();
                }
            }
        }
    }

    /// Takes in what became of the request for a stream of initial events. Where it is refused, and not for now alone, a list is asked
    /// for next; else as for a watch.
    pub(crate) fn on_stream_opened(&mut self, opened: Opened)
        ensures { self.new ≡ after_stream_opened opened self.old }
    {
        match opened {
            Opened::Refused { code, .. } if leads_to_list(code) => self.on_refused(),
            _ => self.on_opened(opened),
        }
    }

    /// Takes in a piece of a watch, and returns what came of it. Where memory runs out the watch is cut, to be asked for again from the revision
    /// that was taken in.
    pub(crate) fn on_piece(&mut self, alloc: Global, bytes: &[u8]) -> Piece
        ensures { IsPieceTaken bytes.now self.old self.new result }
    {
        match self.on_bytes(alloc, bytes) {
            Ok(end) => Piece::of_end(end),
            Err(_) => {
                self.on_cut();
                Piece::Dropped
            }
        }
    }
}
