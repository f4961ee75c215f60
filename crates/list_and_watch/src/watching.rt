//! A watch, opened and read to its end.
ghost use Rattle.std.specs.Prelude.{◌≡◌, IfSome, None};
ghost use Rattle.spec_api.specs.declared.kinds.Kind.{Kind};
ghost use Rattle.list_and_watch.specs.Answered.{has_given, over};
ghost use Rattle.list_and_watch.specs.Exchanged.{Dealings, IsNoted, Notes, at_read, left_for, note_of_piece, watching};
ghost use Rattle.list_and_watch.specs.Given.{StaysSo};
ghost use Rattle.list_and_watch.specs.Gone.{Deals, Does, GoesOn, MovesOn, SaysStop, Tells, WhereLeft, WhereStopped};
ghost use Rattle.list_and_watch.specs.Told.{told, told_cut};

use crate::answered::piece_in;
use crate::follower::Follower;
use crate::listing::publish;
use crate::owed::Owed;
use crate::sinks::Sink;
use crate::tails::Tail;
use crate::timers::Timer;
use crate::tries::{Left, Outcome, Piece, Tried};
use api_client::Api;
use http_client::More;
use plain_informer::Publishing;
use spec_client_go::reflectors::Ask;
use std::alloc::Global;

/// How many bytes of a watch are read at once.
const PIECE: usize = 16_384;

/// Says to a server whether what it sent was understood.
fn note<A: Api>(api: &mut A, piece: Piece, bytes: &[u8])
    ensures { Notes A.exchanges (note_of_piece piece bytes.now) api.old api.new }
{
    match piece {
        Piece::GoesOn => api.note_understood(),
        Piece::Unreadable => api.note_not_understood(bytes),
        Piece::Expired | Piece::Dropped => {}
    }
}

/// Notes what bytes of a watch were found to be. Where they name a revision below the one that was taken in last, it is another server that sends
/// them, but not where initial events are under way, which may name any.
fn tell<A: Api, S: Sink>(is_other: bool, piece: Piece, bytes: &[u8], api: &mut A, sink: &mut S)
    ensures told { IsNoted A.exchanges S.hears (note_of_piece piece bytes.now) (sink.old, api.old) (sink.new, api.new) }
    ensures stays { StaysSo S.stays sink.old sink.new }
{
    if is_other {
        sink.other_server()
    } else {
        note(api, piece, bytes)
    }
}

/// Reads on in the watch that is open, takes in what comes, after the bytes of a frame that is not whole, and returns what came of it. The error is that
/// no bytes come any more.
fn read_once<I: Publishing, A: Api, S: Sink>(
    alloc: Global,
    buffer: &mut [u8],
    tail: &mut Tail,
    follower: &mut Follower<I>,
    api: &mut A,
    sink: &mut S,
) -> Result<Piece, More>
    ensures goes { (k : Kind) → MovesOn (Deals S.takes S.refuses S.answers S.hears A.exchanges k) follower.old watching (sink.old, api.old)
        follower.new (at_read result) (sink.new, api.new) }
    ensures stays { StaysSo S.stays sink.old sink.new }
{
    let is_opening = follower.next() == Ask::Stream;
    let last = follower.look().revision();
    let more = api.more(buffer);
    let Some(bytes) = piece_in(more, buffer) else {
        return Err(more);
    };
    let piece = follower.on_piece(alloc, bytes);
    let is_other = piece == Piece::Unreadable && !is_opening && tail.falls(alloc, bytes, last);
    tell(is_other, piece, bytes, api, sink);
    match tail.push(bytes) {
        Ok(()) => Ok(piece),
        Err(_) => {
            follower.on_cut();
            Ok(Piece::Dropped)
        }
    }
}

/// Publishes what bytes of a watch say, and returns why the watch is left by that, if it is: it has expired, or it cannot be read or
/// given on.
fn leaves<I: Publishing, S: Sink>(
    piece: Piece,
    follower: &mut Follower<I>,
    owed: &mut Owed,
    sink: &mut S,
) -> Option<Left>
    ensures goes { (d : Dealings) → GoesOn (Tells S.takes S.refuses S.answers S.hears) (told follower.old owed.old d) sink.old
        (told follower.new owed.new d) sink.new }
    ensures stays { StaysSo S.stays sink.old sink.new }
    ensures stops { IfSome result (λ left. WhereLeft left (SaysStop S.answers sink.new)) }
    ensures on { result ≡ None → piece ≡ Piece.GoesOn }
{
    match (publish(follower, owed, sink), piece) {
        (Tried::Stopped, _) => Some(Left::Stopped),
        (Tried::Done, Piece::GoesOn) => None,
        (Tried::Done, Piece::Expired) => Some(Left::Expired),
        (Tried::Done, Piece::Unreadable | Piece::Dropped) | (Tried::Failed, _) => Some(
            Left::Failed,
        ),
    }
}

/// Returns why a watch that gives no more bytes is over.
fn over(more: More, gave: bool) -> Left
    ensures { result ≡ over more gave }
{
    match more {
        More::End => Left::Ended(gave),
        More::Bytes(_) | More::Cut => Left::Cut(gave),
    }
}

/// Returns whether a watch has given something: what is asked next differs from what was asked when it was opened. Bytes alone, as of half a frame,
/// and a bookmark that repeats the revision are nothing, and so are initial events that are under way.
fn has_given(asked: Ask, next: Ask) -> bool
    ensures { result ≡ has_given asked next }
{
    match (asked, next) {
        (Ask::Watch(from), Ask::Watch(reached)) => from != reached,
        (Ask::List, Ask::List) | (Ask::Stream, Ask::Stream) => false,
        _ => true,
    }
}

/// Reads the watch that is open to its end, or to what cannot be taken in, and it is to be left then.
fn read<I: Publishing, A: Api, S: Sink>(
    alloc: Global,
    follower: &mut Follower<I>,
    owed: &mut Owed,
    api: &mut A,
    sink: &mut S,
) -> Left
    ensures goes { (k : Kind) → GoesOn (Deals S.takes S.refuses S.answers S.hears A.exchanges k) (told follower.old owed.old watching) (sink.old, api.old)
        (told_cut follower.new owed.new) (sink.new, api.new) }
    ensures stays { StaysSo S.stays sink.old sink.new }
    ensures stops { WhereLeft result (SaysStop S.answers sink.new) }
{
    let asked = follower.next();
    let mut buffer = [0u8; PIECE];
    let mut tail = Tail::new(alloc);
    let mut gave = false;
    for _ in 0..u64::MAX {
        let piece = match read_once(alloc, &mut buffer, &mut tail, follower, api, sink) {
            Ok(piece) => piece,
            Err(more) => return over(more, gave),
        };
        if let Some(left) = leaves(piece, follower, owed, sink) {
            return left;
        }
        gave = has_given(asked, follower.next());
    }
    Left::Ended(gave)
}

/// Reads the watch that is open to its end, and leaves it: the half frame that it may have given is dropped. Returns what came of it.
pub(crate) fn watch<I: Publishing, A: Api, T: Timer, S: Sink>(
    alloc: Global,
    follower: &mut Follower<I>,
    owed: &mut Owed,
    api: &mut A,
    timer: &mut T,
    sink: &mut S,
) -> Outcome
    ensures goes { (k : Kind) → GoesOn (Does S.takes S.refuses S.answers S.hears A.exchanges T.shows T.waits k) (told follower.old owed.old watching)
        (sink.old, api.old, timer.old) (told follower.new owed.new (left_for result.milliseconds)) (sink.new, api.new, timer.new) }
    ensures stays { StaysSo S.stays sink.old sink.new }
    ensures stops { WhereStopped result.tried (SaysStop S.answers sink.new) }
{
    let opened = timer.now();
    let left = read(alloc, follower, owed, api, sink);
    follower.on_cut();
    Outcome {
        tried: left.tried_after(timer.now().saturating_sub(opened)),
        is_in_doubt: left.leaves_doubt(),
        milliseconds: 0,
    }
}
