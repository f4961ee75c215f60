//! What an answer says of how it goes with a server.
ghost use Rattle.std.specs.Prelude.{◌≡◌};
ghost use Rattle.api_notes.specs.News.{first_news, is_over, list_news, refusal, stream_news, watch_news};

use crate::trouble::Trouble;
use api_client::Opened;
use http_client::Answer;
use http_client::statuses::{GONE, OK};
use list_and_watch::{is_refusal, is_refusal_of_streams};

/// What an answer, or who reads it, says.
#[derive(Clone, Copy)]
pub(crate) enum News {
    /// The server replies.
    Replied,
    /// It replies that a list follows.
    ListGiven,
    /// It replies that a watch follows.
    WatchGiven,
    /// What follows was read as such.
    Understood,
    /// This keeps the objects of the kind from coming.
    Troubled(Trouble),
}

/// Returns what a status code says that stands in the place of a watch. Where it is that of success, what comes is no watch.
fn refusal(code: u16) -> Trouble
    ensures { result ≡ refusal code }
{
    if code == OK {
        Trouble::NotUnderstood
    } else {
        Trouble::WatchesRefused(code)
    }
}

/// Returns what the answer to a list says. Whether its body is one, who reads it says.
pub(crate) fn list_news(answer: &Answer) -> News
    ensures { result ≡ list_news answer.now }
{
    match answer {
        Answer::Replied(reply) => {
            if reply.code == OK {
                News::ListGiven
            } else {
                News::Troubled(Trouble::ListsRefused(reply.code))
            }
        }
        Answer::NotSent | Answer::Lost => News::Troubled(Trouble::NoReply),
    }
}

/// Returns what the answer to a first object says, by which a server is known again. A list follows where that is refused, and not for now alone;
/// else it is asked again.
pub(crate) fn first_news(answer: &Answer) -> News
    ensures { result ≡ first_news answer.now }
{
    match answer {
        Answer::Replied(reply) => {
            if reply.code == OK || is_refusal(reply.code) {
                News::Replied
            } else {
                News::Troubled(Trouble::ListsRefused(reply.code))
            }
        }
        Answer::NotSent | Answer::Lost => News::Troubled(Trouble::NoReply),
    }
}

/// Returns what it says that a watch was asked for. A list follows one that has expired.
pub(crate) fn watch_news(opened: Opened) -> News
    ensures { result ≡ watch_news opened }
{
    match opened {
        Opened::Open => News::WatchGiven,
        Opened::Expired => News::Replied,
        Opened::Refused { code, .. } => News::Troubled(refusal(code)),
        Opened::Lost => News::Troubled(Trouble::NoReply),
    }
}

/// Returns what it says that a stream of initial events was asked for. Nothing is wrong where the server does not know such streams: a list follows.
/// After another refusal one may follow too, but streams are watches, and these are then refused as a rule.
pub(crate) fn stream_news(opened: Opened) -> News
    ensures { result ≡ stream_news opened }
{
    match opened {
        Opened::Open => News::WatchGiven,
        Opened::Expired => News::Troubled(Trouble::WatchesRefused(GONE)),
        Opened::Refused { code, .. } => {
            if is_refusal_of_streams(code) {
                News::Replied
            } else {
                News::Troubled(refusal(code))
            }
        }
        Opened::Lost => News::Troubled(Trouble::NoReply),
    }
}

/// Returns whether a trouble is over by such news: that there is no reply by any reply; that lists are refused by what is given, and not by a first
/// object that is read meanwhile; that watches are by a watch, and not by the list before it; and that something is not understood by what is.
pub(crate) fn is_over(news: News, trouble: Trouble) -> bool
    ensures { result ≡ is_over news trouble }
{
    match trouble {
        Trouble::NoReply => !matches!(news, News::Troubled(_)),
        Trouble::ListsRefused(_) => matches!(news, News::ListGiven | News::WatchGiven),
        Trouble::WatchesRefused(_) => matches!(news, News::WatchGiven),
        Trouble::NotUnderstood => matches!(news, News::Understood),
    }
}
