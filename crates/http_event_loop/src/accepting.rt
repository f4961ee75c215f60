//! Connections that are accepted.
ghost use Rattle.std.specs.Prelude.{◌≡◌, ◌≢◌, ◌<◌, ◌≤◌, ◌+◌, ◌-◌, is_some};

use crate::given::Given;
use crate::loops::Loops;
use mio::net::{TcpListener, TcpStream};
use mio::{Interest, Poll, Token};
use std::io;
use std::io::ErrorKind;

/// The token of the listener.
pub(crate) const LISTENER: Token = Token(usize::MAX);

/// How many of the connections that are accepted in a round one loop is given before the next one: few, since one may ask for what takes long,
/// and more than one, since a loop is woken once for all.
const SHARE: usize = 4;

/// How many that take long each other loop is given, where none is free, for one that the own loop takes.
const SHARE_OF_OTHERS: usize = 2;

/// A listener whose connections loops answer, and how many at most, if they are counted.
#[derive(Drop)]
pub struct Listening {
    pub listener: std::net::TcpListener,
    pub limit: Option<u64>,
}

/// What accepts connections, and to which loop each is given.
#[derive(Drop)]
pub(crate) struct Accepting {
    listener: TcpListener,
    /// How many more are accepted, if they are counted.
    left: Option<u64>,
    /// The loop whose turn it was last.
    turn: usize,
    /// How many times more another loop than the own is given what takes long, where none is free.
    others_left: usize,
    /// The loop that is given the next connection of the round, if its share has some left.
    place: usize,
    /// How many more that one is given.
    share: usize,
    /// Whether a connection may wait that no event will tell of: there was no room for it, or the system refused to accept it.
    is_held_up: bool,
    /// Whether the last one that was tried came, so that another may wait, of which no event will tell either.
    has_more: bool,
}

/// Returns how many loops of so many, from the first on, are another than the own one.
fn others(own: usize, count: usize) -> usize
    ensures among { own < count → result ≡ count - 1 }
    ensures beyond { count ≤ own → result ≡ count }
{
    if own < count {
        count.saturating_sub(1)
    } else {
        count
    }
}

/// Returns the number after this one, of so many; after the last it is the first.
fn following(number: usize, count: usize) -> usize
    ensures next { number + 1 < count → result ≡ number + 1 }
    ensures first { count ≤ number + 1 → result ≡ 0 }
    ensures below { 0 < count → result < count }
    ensures other { 1 < count → result ≢ number }
{
    if number < count.saturating_sub(1) {
        number + 1
    } else {
        0
    }
}

impl Accepting {
    /// Returns what accepts from a listener where the poll reports its connections.
    pub(crate) fn new(poll: &Poll, listening: Listening) -> io::Result<Accepting> {
        let Listening { listener, limit } = listening;
        listener.set_nonblocking(true)?;
        let mut listener = TcpListener::from_std(listener);
        poll.registry()
            .register(&mut listener, LISTENER, Interest::READABLE)?;
        Ok(Accepting {
            listener,
            left: limit,
            turn: 0,
            others_left: 0,
            place: 0,
            share: 0,
            is_held_up: false,
            has_more: false,
        })
    }

    /// Returns the next connection; none where none waits, there is no room, or the system refuses it. Notes whether more may wait.
    pub(crate) fn accept(&mut self, loops: &Loops) -> Option<TcpStream>
        ensures { self.new.has_more ≡ is_some result }
    {
        let accepted = self.try_accept(loops);
        self.has_more = accepted.is_some();
        accepted
    }

    /// Returns the next connection; none where none waits, there is no room, or the system refuses it, as where it has no descriptor for it. After
    /// a refusal it is tried once more, as a connection may have ended before the refusal was noted.
    fn try_accept(&mut self, loops: &Loops) -> Option<TcpStream> {
        self.is_held_up = !loops.has_room();
        if self.is_over() || self.is_held_up {
            return None;
        }
        for _ in 0..u64::MAX {
            match self.listener.accept() {
                Ok((stream, _)) => {
                    self.count();
                    loops.enter();
                    return Some(stream);
                }
                Err(error) => match error.kind() {
                    ErrorKind::Interrupted | ErrorKind::ConnectionAborted => {}
                    ErrorKind::WouldBlock => return None,
                    _ => {
                        self.is_held_up = true;
                        if loops.refuse() {
                            return None;
                        }
                    }
                },
            }
        }
        None
    }

    /// Counts a connection that was accepted.
    fn count(&mut self) {
        if let Some(left) = self.left {
            self.left = Some(left.saturating_sub(1));
        }
    }

    /// Returns whether no more are accepted.
    pub(crate) fn is_over(&self) -> bool {
        self.left == Some(0)
    }

    /// Returns whether a connection may wait that no event will tell of: it is to be tried again.
    pub(crate) fn is_held_up(&self) -> bool {
        self.is_held_up
    }

    /// Returns whether more may wait than were accepted, since the last one that was tried came: to try once more says whether any does.
    pub(crate) fn has_more(&self) -> bool
        ensures { result ≡ self.now.has_more }
    {
        self.has_more
    }

    /// Returns the number of the loop whose turn it is, of so many: another than the own, if there is one.
    pub(crate) fn take_turn(&mut self, own: usize, count: usize) -> usize
        ensures below { 0 < count → result < count }
        ensures other { 1 < count → result ≢ own }
    {
        let next = following(self.turn, count);
        self.turn = if next == own {
            following(next, count)
        } else {
            next
        };
        self.turn
    }

    /// Returns the number of a loop that has nothing to do; where there is none, of the others by turns, and after two for each of these of the
    /// own one: while it does what takes long, nobody is given anything.
    pub(crate) fn take_free(&mut self, own: usize, loops: &Loops) -> usize {
        let count = loops.at_work().long;
        if let Some(number) = loops.free(count) {
            return number;
        }
        if self.others_left == 0 {
            self.others_left = others(own, count).saturating_mul(SHARE_OF_OTHERS);
            return own;
        }
        self.others_left -= 1;
        self.take_turn(own, count)
    }

    /// Returns the number of the loop that is given a connection which the own one read, and did not begin. One that asks for a list goes to a
    /// loop that can begin at once; where there is none, to the others by turns, and at times to the own one. Others are spread, since a watch
    /// stays where it is.
    pub(crate) fn place_of(&mut self, own: usize, loops: &Loops, given: &Given) -> usize {
        if given.is_list() {
            self.take_free(own, loops)
        } else {
            self.take_turn(own, loops.at_work().long)
        }
    }

    /// Begins a round with the share of the own loop.
    pub(crate) fn begin_round(&mut self, own: usize) {
        self.place = own;
        self.share = SHARE;
    }

    /// Returns the number of the loop that is given the next connection of the round: after the own one those that have nothing to do, and then
    /// the others by turns.
    pub(crate) fn take_place(&mut self, own: usize, loops: &Loops) -> usize {
        if self.share == 0 {
            let count = loops.at_work().unread;
            self.place = match loops.free(count) {
                Some(number) => number,
                None => self.take_turn(own, count),
            };
            self.share = SHARE;
        }
        self.share -= 1;
        self.place
    }
}
