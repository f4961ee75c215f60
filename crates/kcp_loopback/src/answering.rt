//! What answers the connections of a server.
ghost use Rattle.std.specs.Prelude.{◌≡◌, All, IfOk, length, map};
ghost use Rattle.kcp_loopback.specs.Serving.{IsNewOf, seat_of};
ghost use Rattle.desk.specs.Desks.{IsNewAt, IsPassAt, known};
ghost use Rattle.desk.specs.Seats.{desk_at, known_at};

use crate::ringing::Ringer;
use desk::{Desk, Readable, Seat, StorePass};
use http_event_loop::{EventLoop, Listening, LoopPlace, Loops, Turns};
use std::alloc::Global;
use std::io;
use std::sync::ledger::Ledger;
use std::sync::{Mutex, Wait};

/// A loop at a seat of the desk that all loops share, whose writes it tells them.
pub type SeatedLoop<'a, R, L> = EventLoop<'a, Seat<'a, Readable, Ringer<'a>, R>, L>;

/// What the loops of a server share: their desk, what tells them of writes, and the turns that their connections take.
#[derive(Drop)]
pub struct Shared<'a, R, L: Ledger> {
    pub rt: &'a R,
    pub alloc: Global,
    pub desk: &'a Desk<Readable>,
    pub loops: &'a Loops,
    pub turns: &'a Mutex<Turns<L>>,
}

impl<'a, R: Wait, L: Ledger> Shared<'a, R, L> {
    /// Returns the loop of a place, with a pass of the desk.
    fn event_loop(
        &self,
        pass: StorePass,
        place: LoopPlace,
        listening: Option<Listening>,
    ) -> io::Result<SeatedLoop<'a, R, L>>
        requires { IsPassAt self.now.desk.now pass }
        ensures desk { IfOk result (λ made. desk_at (seat_of made) ≡ self.now.desk.now) }
        ensures known { IfOk result (λ made. known_at (seat_of made) ≡ known pass) }
        ensures turns { IfOk result (λ made. made.asker.taken.count ≡ 0) }
        ensures asked { IfOk result (λ made. made.asker.asked ≡ 0) }
    {
        let ringer = Ringer {
            loops: self.loops,
            number: Some(place.number()),
        };
        let seat = Seat::new(self.desk, pass, self.rt, ringer);
        EventLoop::new(
            self.rt, self.alloc, self.loops, self.turns, place, listening, seat,
        )
    }

    /// Returns loops, one for each pass and place and in their order, the last of which accepts connections for all: `run_row` runs the last of a
    /// row where it is called, and starts threads for the others from the first on, which are given connections first. So connections are
    /// accepted where the system makes no thread. The error is one of the system, or running out of memory.
    pub fn event_loops(
        &self,
        passes: Vec<StorePass>,
        places: Vec<LoopPlace>,
        listening: Listening,
    ) -> io::Result<Vec<SeatedLoop<'a, R, L>>>
        requires new { All (IsNewAt self.now.desk.now) passes.items }
        requires count { length places.items ≡ length passes.items }
        ensures new { IfOk result (λ made. All (IsNewOf self.now.desk.now) made.items) }
        ensures count { IfOk result (λ made. length made.items ≡ length passes.items) }
        ensures known { IfOk result (λ made. map (λ e. known_at (seat_of e)) made.items ≡ map known passes.items) }
    {
        let mut made = Vec::with_capacity(self.alloc, passes.len())?;
        let (mut passes, mut places) = (passes, places);
        let mut listening = Some(listening);
        while let Some(pass) = passes.pop() {
            let Some(place) = places.pop() else {
                unreachable!()
            };
            made.push(self.event_loop(pass, place, listening.take())?)?;
        }
        made.reverse();
        Ok(made)
    }
}
