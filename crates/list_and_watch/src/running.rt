//! The loop of a follower.
ghost use Rattle.std.specs.Prelude.{◌≡◌, ◌≢◌, ◌⊎◌};
ghost use Rattle.spec_client_go.specs.Reflectors.{asks};
ghost use Rattle.list_and_watch.specs.Exchanged.{at_opened, idle, left_for};
ghost use Rattle.list_and_watch.specs.Given.{StaysSo};
ghost use Rattle.list_and_watch.specs.Gone.{AsksOnce, Does, Follows, GoesOn, Rests, SaysStop, WaitsNoMore, WhereGoOn, WhereStop, WhereStopped};
ghost use Rattle.list_and_watch.specs.Told.{told};

use crate::answered::is_left_open;
use crate::doubts::look;
use crate::follower::Follower;
use crate::listing::{list, publish};
use crate::onward::Onward;
use crate::owed::Owed;
use crate::pauses::Pauses;
use crate::recognizing::Recognized;
use crate::sinks::Sink;
use crate::timers::Timer;
use crate::tries::{Outcome, Tried};
use crate::watching::watch;
use api_client::{Api, Opened};
use plain_informer::Publishing;
use spec_api::kinds::Kind;
use spec_client_go::reflectors::Ask;
use std::alloc::Global;

/// What is known between two tries.
#[derive(Drop)]
struct Known {
    owed: Owed,
    /// Whether it may be another server that is asked next.
    is_in_doubt: bool,
    /// For how many milliseconds the server asked to be left alone.
    milliseconds: u32,
}

/// Reads the watch that was asked for to its end, if it is open. Returns what came of it; where it is not open, that is given.
fn read_on<I: Publishing, A: Api, T: Timer, S: Sink>(
    alloc: Global,
    opened: Opened,
    unopened: Tried,
    follower: &mut Follower<I>,
    owed: &mut Owed,
    api: &mut A,
    timer: &mut T,
    sink: &mut S,
) -> Outcome
    requires { unopened ≢ Tried.Stopped }
    ensures goes { (kind : Kind) → GoesOn (Does S.takes S.refuses S.answers S.hears A.exchanges T.shows T.waits kind) (told follower.old owed.old (at_opened opened))
        (sink.old, api.old, timer.old) (told follower.new owed.new (left_for result.milliseconds)) (sink.new, api.new, timer.new) }
    ensures stays { StaysSo S.stays sink.old sink.new }
    ensures stops { WhereStopped result.tried (SaysStop S.answers sink.new) }
{
    match opened {
        Opened::Open => watch(alloc, follower, owed, api, timer, sink),
        _ => Outcome {
            tried: unopened,
            is_in_doubt: is_left_open(opened),
            milliseconds: opened.milliseconds_asked(),
        },
    }
}

/// Asks for a stream of initial events. A list follows without a pause where it is refused, and not for now alone. Returns what came of it.
fn ask_stream<I: Publishing, A: Api, T: Timer, S: Sink>(
    alloc: Global,
    kind: Kind,
    follower: &mut Follower<I>,
    owed: &mut Owed,
    api: &mut A,
    timer: &mut T,
    sink: &mut S,
) -> Outcome
    requires { asks follower.old.reflector ≡ Ask.Stream }
    ensures goes { GoesOn (Does S.takes S.refuses S.answers S.hears A.exchanges T.shows T.waits kind) (told follower.old owed.old idle) (sink.old, api.old, timer.old)
        (told follower.new owed.new (left_for result.milliseconds)) (sink.new, api.new, timer.new) }
    ensures stays { StaysSo S.stays sink.old sink.new }
    ensures stops { WhereStopped result.tried (SaysStop S.answers sink.new) }
{
    let opened = api.open_stream(alloc, kind);
    follower.on_stream_opened(opened);
    let unopened = unopened(follower.next());
    read_on(alloc, opened, unopened, follower, owed, api, timer, sink)
}

/// Returns what came of a stream that is not open, by what is to be asked next: where that is a list, it follows at once.
fn unopened(next: Ask) -> Tried
    ensures { result ≢ Tried.Stopped }
{
    match next {
        Ask::List => Tried::Done,
        Ask::Stream | Ask::Watch(_) => Tried::Failed,
    }
}

/// Asks for a watch after a revision. Returns what came of it.
fn ask_watch<I: Publishing, A: Api, T: Timer, S: Sink>(
    alloc: Global,
    kind: Kind,
    revision: u64,
    follower: &mut Follower<I>,
    owed: &mut Owed,
    api: &mut A,
    timer: &mut T,
    sink: &mut S,
) -> Outcome
    requires { asks follower.old.reflector ≡ Ask.Watch revision }
    ensures goes { GoesOn (Does S.takes S.refuses S.answers S.hears A.exchanges T.shows T.waits kind) (told follower.old owed.old idle) (sink.old, api.old, timer.old)
        (told follower.new owed.new (left_for result.milliseconds)) (sink.new, api.new, timer.new) }
    ensures stays { StaysSo S.stays sink.old sink.new }
    ensures stops { WhereStopped result.tried (SaysStop S.answers sink.new) }
{
    let opened = api.open_watch(alloc, kind, revision);
    follower.on_opened(opened);
    read_on(
        alloc,
        opened,
        Tried::Failed,
        follower,
        owed,
        api,
        timer,
        sink,
    )
}

/// Asks for what the follower is to ask next, and takes in what comes. Returns what came of it.
fn ask_next<I: Publishing, A: Api, T: Timer, S: Sink>(
    alloc: Global,
    kind: Kind,
    follower: &mut Follower<I>,
    owed: &mut Owed,
    api: &mut A,
    timer: &mut T,
    sink: &mut S,
) -> Outcome
    ensures goes { GoesOn (Does S.takes S.refuses S.answers S.hears A.exchanges T.shows T.waits kind) (told follower.old owed.old idle) (sink.old, api.old, timer.old)
        (told follower.new owed.new (left_for result.milliseconds)) (sink.new, api.new, timer.new) }
    ensures stays { StaysSo S.stays sink.old sink.new }
    ensures stops { WhereStopped result.tried (SaysStop S.answers sink.new) }
{
    match follower.next() {
        Ask::List => list(alloc, kind, follower, owed, api, sink),
        Ask::Stream => ask_stream(alloc, kind, follower, owed, api, timer, sink),
        Ask::Watch(revision) => ask_watch(alloc, kind, revision, follower, owed, api, timer, sink),
    }
}

/// Asks for what the follower is to ask next, and takes in what comes.
fn ask<I: Publishing, A: Api, T: Timer, S: Sink>(
    alloc: Global,
    kind: Kind,
    follower: &mut Follower<I>,
    known: &mut Known,
    api: &mut A,
    timer: &mut T,
    sink: &mut S,
) -> Tried
    ensures goes { GoesOn (Does S.takes S.refuses S.answers S.hears A.exchanges T.shows T.waits kind) (told follower.old known.old.owed idle) (sink.old, api.old, timer.old)
        (told follower.new known.new.owed (left_for known.new.milliseconds)) (sink.new, api.new, timer.new) }
    ensures stays { StaysSo S.stays sink.old sink.new }
    ensures stops { WhereStopped result (SaysStop S.answers sink.new) }
{
    let outcome = ask_next(alloc, kind, follower, &mut known.owed, api, timer, sink);
    known.is_in_doubt = outcome.is_in_doubt;
    known.milliseconds = outcome.milliseconds;
    outcome.tried
}

/// Looks whether the server is still the same, where it may be another one; and then asks what is to be asked next.
fn look_and_ask<I: Publishing, A: Api, T: Timer, S: Sink>(
    alloc: Global,
    kind: Kind,
    follower: &mut Follower<I>,
    known: &mut Known,
    api: &mut A,
    timer: &mut T,
    sink: &mut S,
) -> Tried
    ensures goes { GoesOn (Does S.takes S.refuses S.answers S.hears A.exchanges T.shows T.waits kind) (told follower.old known.old.owed idle) (sink.old, api.old, timer.old)
        (told follower.new known.new.owed (left_for known.new.milliseconds)) (sink.new, api.new, timer.new) }
    ensures stays { StaysSo S.stays sink.old sink.new }
    ensures stops { WhereStopped result (SaysStop S.answers sink.new) }
{
    if !known.is_in_doubt {
        return ask(alloc, kind, follower, known, api, timer, sink);
    }
    let look = look(alloc, kind, follower, api, sink);
    known.is_in_doubt = look.recognized == Recognized::Unanswered;
    known.milliseconds = look.milliseconds;
    if look.leads_on() {
        ask(alloc, kind, follower, known, api, timer, sink)
    } else {
        Tried::Failed
    }
}

/// Gives what is still owed and publishes what still waits, as where memory ran out; looks whether the server is still the same, where it may be
/// another one; and then asks what is to be asked next.
fn try_once<I: Publishing, A: Api, T: Timer, S: Sink>(
    alloc: Global,
    kind: Kind,
    follower: &mut Follower<I>,
    known: &mut Known,
    api: &mut A,
    timer: &mut T,
    sink: &mut S,
) -> Tried
    requires { known.old.milliseconds ≡ 0 }
    ensures asks { AsksOnce (Does S.takes S.refuses S.answers S.hears A.exchanges T.shows T.waits kind) (told follower.old known.old.owed idle) (sink.old, api.old, timer.old)
        (told follower.new known.new.owed (left_for known.new.milliseconds)) (sink.new, api.new, timer.new) }
    ensures stays { StaysSo S.stays sink.old sink.new }
    ensures stops { WhereStopped result (SaysStop S.answers sink.new) }
{
    match publish(follower, &mut known.owed, sink) {
        Tried::Done => look_and_ask(alloc, kind, follower, known, api, timer, sink),
        Tried::Failed => Tried::Failed,
        Tried::Stopped => Tried::Stopped,
    }
}

/// Waits after a try that failed, and as long as the server asks to be left alone at least, which is over then. Returns whether the follower goes on.
fn rest<T: Timer>(pauses: &mut Pauses, milliseconds: &mut u32, timer: &mut T) -> Onward
    ensures rests { Rests T.shows T.waits milliseconds.old timer.old result timer.new }
    ensures over { milliseconds.new ≡ 0 }
{
    let pause = pauses.on_failed(timer.now());
    let asked = u64::from(*milliseconds);
    *milliseconds = 0;
    timer.pause(pause.max(asked))
}

/// Asks once, and waits where that failed, or where the server asks to be left alone. Returns whether the follower goes on.
fn go_once<I: Publishing, A: Api, T: Timer, S: Sink>(
    alloc: Global,
    kind: Kind,
    follower: &mut Follower<I>,
    known: &mut Known,
    pauses: &mut Pauses,
    api: &mut A,
    timer: &mut T,
    sink: &mut S,
) -> Onward
    requires { known.old.milliseconds ≡ 0 }
    ensures asks { AsksOnce (Does S.takes S.refuses S.answers S.hears A.exchanges T.shows T.waits kind) (told follower.old known.old.owed idle) (sink.old, api.old, timer.old)
        (told follower.new known.new.owed (left_for known.new.milliseconds)) (sink.new, api.new, timer.new) }
    ensures free { WhereGoOn result (known.new.milliseconds ≡ 0) }
    ensures stays { StaysSo S.stays sink.old sink.new }
    ensures stops { WhereStop result (SaysStop S.answers sink.new ⊎ WaitsNoMore T.waits timer.new) }
{
    match try_once(alloc, kind, follower, known, api, timer, sink) {
        Tried::Done if known.milliseconds == 0 => Onward::GoOn,
        Tried::Stopped => Onward::Stop,
        _ => match sink.goes_on() {
            Onward::GoOn => rest(pauses, &mut known.milliseconds, timer),
            Onward::Stop => Onward::Stop,
        },
    }
}

/// Keeps the copy of a follower of a kind up to date with a server until the sink or the timer stops it: asks what the follower is to ask
/// next, publishes after each list and each piece of a watch, and gives the sink what that changes. After a try that failed it pauses, and a server that
/// asks to be left alone is asked nothing for as long. After one that did not end as servers end them, it looks first whether the server is still the
/// same, and tells the sink where it is another one. A sink that does not take changes is given them again; those that it has not taken when the follower
/// stops are not given again. What stays so of a sink is so of it when the follower has stopped.
pub fn follow<I: Publishing, A: Api, T: Timer, S: Sink>(
    alloc: Global,
    kind: Kind,
    follower: &mut Follower<I>,
    api: &mut A,
    timer: &mut T,
    sink: &mut S,
)
    ensures follows { Follows (Does S.takes S.refuses S.answers S.hears A.exchanges T.shows T.waits kind)
        (SaysStop S.answers sink.new ⊎ WaitsNoMore T.waits timer.new)
        follower.old (sink.old, api.old, timer.old) follower.new (sink.new, api.new, timer.new) }
    ensures stays { StaysSo S.stays sink.old sink.new }
{
    let mut known = Known {
        owed: Owed::new(),
        is_in_doubt: false,
        milliseconds: 0,
    };
    let mut pauses = Pauses {
        failures: 0,
        last: 0,
    };
    for _tries in 0..u64::MAX {
        match go_once(
            alloc,
            kind,
            follower,
            &mut known,
            &mut pauses,
            api,
            timer,
            sink,
        ) {
            Onward::GoOn => {}
            Onward::Stop => return,
        }
    }
}
