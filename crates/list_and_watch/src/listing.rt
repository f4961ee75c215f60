//! A list, asked for and taken in.
ghost use Rattle.std.specs.Prelude.{◌≡◌, option_map};
ghost use Rattle.spec_client_go.specs.Reflectors.{asks};
ghost use Rattle.http_client.specs.Waits.{milliseconds_asked};
ghost use Rattle.api_client.specs.Exchanges.{not_understood};
ghost use Rattle.list_and_watch.specs.Answered.{body_in};
ghost use Rattle.list_and_watch.specs.Exchanged.{Dealings, Notes, idle, left_for};
ghost use Rattle.list_and_watch.specs.Given.{StaysSo};
ghost use Rattle.list_and_watch.specs.Gone.{AsksOnce, Deals, GoesOn, SaysStop, Tells, WhereStopped, tried_of};
ghost use Rattle.list_and_watch.specs.Told.{told};

use crate::answered::body_in;
use crate::follower::Follower;
use crate::onward::Onward;
use crate::owed::Owed;
use crate::sinks::Sink;
use crate::tries::{Outcome, Tried};
use api_client::Api;
use http_client::{Answer, milliseconds_asked};
use plain_informer::Publishing;
use reflector::ListFault;
use spec_api::kinds::Kind;
use spec_client_go::reflectors::Ask;
use std::alloc::{AllocError, Global};

/// Publishes what waits, unless changes are still owed, and gives a sink what is owed.
fn give<I: Publishing, S: Sink>(
    follower: &mut Follower<I>,
    owed: &mut Owed,
    sink: &mut S,
) -> Result<(), AllocError>
    ensures goes { (d : Dealings) → GoesOn (Tells S.takes S.refuses S.answers S.hears) (told follower.old owed.old d) sink.old
        (told follower.new owed.new d) sink.new }
    ensures stays { StaysSo S.stays sink.old sink.new }
{
    owed.publish(follower)?;
    owed.give(follower.look(), sink)
}

/// Returns what came of a publish, by whether a sink took it and what it said.
fn tried_of(is_given: bool, onward: Onward) -> Tried
    ensures { result ≡ tried_of is_given onward }
{
    match onward {
        Onward::GoOn if is_given => Tried::Done,
        Onward::GoOn => Tried::Failed,
        Onward::Stop => Tried::Stopped,
    }
}

/// Publishes what waits and gives it to a sink, and asks whether to go on.
pub(crate) fn publish<I: Publishing, S: Sink>(
    follower: &mut Follower<I>,
    owed: &mut Owed,
    sink: &mut S,
) -> Tried
    ensures asks { (d : Dealings) → AsksOnce (Tells S.takes S.refuses S.answers S.hears) (told follower.old owed.old d) sink.old
        (told follower.new owed.new d) sink.new }
    ensures goes { (d : Dealings) → GoesOn (Tells S.takes S.refuses S.answers S.hears) (told follower.old owed.old d) sink.old
        (told follower.new owed.new d) sink.new }
    ensures stays { StaysSo S.stays sink.old sink.new }
    ensures stops { WhereStopped result (SaysStop S.answers sink.new) }
{
    let given = give(follower, owed, sink);
    let onward = sink.goes_on();
    tried_of(given.is_ok(), onward)
}

/// Asks for a list, takes it in and publishes it.
pub(crate) fn list<I: Publishing, A: Api, S: Sink>(
    alloc: Global,
    kind: Kind,
    follower: &mut Follower<I>,
    owed: &mut Owed,
    api: &mut A,
    sink: &mut S,
) -> Outcome
    requires { asks follower.old.reflector ≡ Ask.List }
    ensures goes { GoesOn (Deals S.takes S.refuses S.answers S.hears A.exchanges kind) (told follower.old owed.old idle) (sink.old, api.old)
        (told follower.new owed.new (left_for result.milliseconds)) (sink.new, api.new) }
    ensures stays { StaysSo S.stays sink.old sink.new }
    ensures stops { WhereStopped result.tried (SaysStop S.answers sink.new) }
{
    let answer = api.list(alloc, kind);
    match follower.on_answer(alloc, &answer) {
        Ok(()) => {
            api.note_understood();
            let tried = publish(follower, owed, sink);
            outcome_of(tried, follower, &answer)
        }
        Err(ListFault::Unreadable) => {
            note_unreadable(api, &answer);
            outcome_of(Tried::Failed, follower, &answer)
        }
        Err(ListFault::Want) => outcome_of(Tried::Failed, follower, &answer),
    }
}

/// Returns what came of a list. It may be another server that is asked next where a list is to be asked for again.
fn outcome_of<I: Publishing>(tried: Tried, follower: &Follower<I>, answer: &Answer) -> Outcome
    ensures tried { result.tried ≡ tried }
    ensures milliseconds { result.milliseconds ≡ milliseconds_asked answer.now }
{
    Outcome {
        tried,
        is_in_doubt: follower.next() == Ask::List,
        milliseconds: milliseconds_asked(answer),
    }
}

/// Says that a body cannot be read, if one was answered.
fn note_unreadable<A: Api>(api: &mut A, answer: &Answer)
    ensures { Notes A.exchanges (option_map not_understood (body_in answer.now)) api.old api.new }
{
    if let Some(body) = body_in(answer) {
        api.note_not_understood(body);
    }
}
