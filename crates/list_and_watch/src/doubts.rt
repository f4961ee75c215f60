//! Whether it is still the same server that is asked.
ghost use Rattle.std.specs.Prelude.{◌≡◌};
ghost use Rattle.list_and_watch.specs.Exchanged.{IsFound, Notes, Says, after_recognized, idle, left_for, note_of_first};
ghost use Rattle.list_and_watch.specs.Given.{StaysSo};
ghost use Rattle.list_and_watch.specs.Gone.{Deals, MovesOn};

use crate::answered::body_in;
use crate::follower::Follower;
use crate::recognizing::{Recognized, recognize};
use crate::sinks::Sink;
use api_client::Api;
use http_client::{Answer, milliseconds_asked};
use indexer::Indexed;
use plain_informer::Publishing;
use spec_api::kinds::Kind;
use std::alloc::Global;

/// What is known of a server.
#[derive(Clone, Copy)]
pub(crate) struct Sighting {
    pub(crate) recognized: Recognized,
    /// For how many milliseconds it asks to be left alone.
    pub(crate) milliseconds: u32,
}

impl Sighting {
    ghost use Rattle.std.specs.Prelude.{◌≡◌, true};

    /// Returns whether what the follower is to ask next is asked at once: the server is the same, or is to be asked for a list as it may be another one,
    /// and it is not to be left alone.
    pub(crate) fn leads_on(self) -> bool
        ensures { result ≡ true → self.milliseconds ≡ 0 }
    {
        self.milliseconds == 0 && matches!(self.recognized, Recognized::Same | Recognized::Unknown)
    }
}

/// Says to a server whether its answer was understood, if it answered with something to be read.
fn note<A: Api>(api: &mut A, answer: &Answer, recognized: Recognized)
    ensures { Notes A.exchanges (note_of_first recognized answer.now) api.old api.new }
{
    match body_in(answer) {
        Some(body) if recognized == Recognized::Unanswered => api.note_not_understood(body),
        Some(_) => api.note_understood(),
        None => {}
    }
}

/// Returns what an answer says of the server to who holds a copy, and says to the server whether it was understood.
fn understand<A: Api>(
    alloc: Global,
    kind: Kind,
    copy: &Indexed,
    answer: &Answer,
    api: &mut A,
) -> Recognized
    ensures { Says A.exchanges kind copy.now api.old answer.now result api.new }
{
    match recognize(alloc, kind, copy.revision(), copy, answer) {
        Ok(recognized) => {
            note(api, answer, recognized);
            recognized
        }
        Err(_) => Recognized::Unanswered,
    }
}

/// Asks a server for the first object of the kind at the revision of a copy, and returns what that says of the server. Nothing is asked where the
/// copy is of none.
fn ask<A: Api>(alloc: Global, kind: Kind, copy: &Indexed, api: &mut A) -> Sighting
    ensures { IsFound A.exchanges kind copy.now api.old result.recognized result.milliseconds api.new }
{
    let revision = copy.revision();
    if revision == 0 {
        return Sighting {
            recognized: Recognized::Same,
            milliseconds: 0,
        };
    }
    let answer = api.first_at(alloc, kind, revision);
    Sighting {
        recognized: understand(alloc, kind, copy, &answer, api),
        milliseconds: milliseconds_asked(&answer),
    }
}

/// Takes in what is known of a server. Where it may be or is another one, a list is asked for next.
fn heed<I: Publishing>(follower: &mut Follower<I>, recognized: Recognized)
    ensures { follower.new ≡ after_recognized recognized follower.old }
{
    match recognized {
        Recognized::Same => {}
        Recognized::Unanswered => {}
        Recognized::Unknown => follower.on_expired(),
        Recognized::Other => follower.on_expired(),
    }
}

/// Looks whether it is still the same server that is asked, and returns what is known of it. Where it may be or is another one, a list is asked for
/// next, and where it is, the sink is told.
pub(crate) fn look<I: Publishing, A: Api, S: Sink>(
    alloc: Global,
    kind: Kind,
    follower: &mut Follower<I>,
    api: &mut A,
    sink: &mut S,
) -> Sighting
    ensures found { IsFound A.exchanges kind follower.old.informer.published api.old result.recognized result.milliseconds api.new }
    ensures goes { MovesOn (Deals S.takes S.refuses S.answers S.hears A.exchanges kind) follower.old idle (sink.old, api.old)
        follower.new (left_for result.milliseconds) (sink.new, api.new) }
    ensures stays { StaysSo S.stays sink.old sink.new }
{
    let look = ask(alloc, kind, follower.look(), api);
    heed(follower, look.recognized);
    if look.recognized != Recognized::Other {
        return look;
    }
    sink.other_server();
    look
}
