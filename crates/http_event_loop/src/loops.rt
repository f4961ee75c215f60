//! What some loops share.
ghost use Rattle.std.specs.Prelude.{◌≡◌, ◌+◌, IfOk, OnOk, length};

use crate::at_work::AtWork;
use crate::given::Given;
use crate::opened::Open;
use crate::place::LoopPlace;
use crate::wakes::Wakes;
use mio::Poll;
use spec_api::kinds::Kind;
use std::alloc::Global;
use std::io;
use std::net::Net;
use std::sync::Wait;
use std::sync::atomic::{AtomicU64, Ordering};
use std::thread::Threads;

/// What some loops share, each on a thread of its own: how each is reached, how many connections are open over all, and whether all are to
/// stop.
///
/// No clause says that a loop sees what it is told, since contracts say nothing of what another thread does meanwhile.
pub struct Loops {
    wakes: Vec<Wakes>,
    at_work: AtWork,
    open: Open,
    is_stopped: AtomicU64,
}

impl Drop for Loops {
    // Called where one is dropped; a derived drop is proved anew at each such place.
    fn drop(self) {
        let Loops {
            wakes: _wakes,
            at_work: _at_work,
            open: _open,
            is_stopped: _is_stopped,
        } = self;
    }
}

/// Opens the place of the loop of this number, and how it is reached.
fn open_place<R: Net>(
    rt: &R,
    alloc: Global,
    number: usize,
    wakes: &mut Vec<Wakes>,
    places: &mut Vec<LoopPlace>,
) -> io::Result<()>
    ensures { OnOk result (length places.new.items ≡ length places.old.items + 1) }
{
    let poll = Poll::new(rt)?;
    wakes.push(Wakes::new(alloc, &poll)?)?;
    places.push(LoopPlace { poll, number })?;
    Ok(())
}

/// Opens the places of so many loops, and how each is reached.
fn open_places<R: Net>(
    rt: &R,
    alloc: Global,
    count: usize,
    wakes: &mut Vec<Wakes>,
    places: &mut Vec<LoopPlace>,
) -> io::Result<()>
    ensures { OnOk result (length places.new.items ≡ length places.old.items + count) }
{
    for number in 0..count {
        open_place(rt, alloc, number, wakes, places)?;
    }
    Ok(())
}

impl Loops {
    /// Returns what so many loops share, and where each waits. Of those beyond the number of processors some are given nothing.
    pub fn open<R: Net + Threads>(
        rt: &R,
        alloc: Global,
        count: usize,
    ) -> io::Result<(Loops, Vec<LoopPlace>)>
        ensures { IfOk result (λ opened. length opened.1.items ≡ count) }
    {
        let mut wakes = Vec::new(alloc);
        let mut places = Vec::new(alloc);
        match open_places(rt, alloc, count, &mut wakes, &mut places) {
            Ok(()) => {
                let loops = Loops {
                    wakes,
                    at_work: AtWork::of(rt, count),
                    open: Open::new(),
                    is_stopped: AtomicU64::new(0),
                };
                Ok((loops, places))
            }
            Err(error) => Err(error),
        }
    }

    /// Tells all loops that an object of this kind was written, by the loop of this number if by one. It waits for nobody. A loop with no
    /// watch of the kind is not woken, nor one that was told and has not looked yet, nor the one that wrote: it looks before it waits.
    pub fn wrote(&self, kind: Kind, by: Option<usize>) {
        for number in 0..self.wakes.len() {
            if let Some(wakes) = self.wakes.get(number) {
                wakes.wrote(kind, by == Some(number));
            }
        }
    }

    /// Tells all loops to stop, and wakes them.
    pub fn stop(&self) {
        self.is_stopped.store(1, Ordering::SeqCst);
        self.wake_all();
    }

    /// Returns whether the loops were told to stop.
    pub fn is_stopped(&self) -> bool {
        self.is_stopped.load(Ordering::SeqCst) != 0
    }

    /// Wakes all loops.
    fn wake_all(&self) {
        for wakes in &self.wakes {
            wakes.wake();
        }
    }

    /// Says that the loop of this number accepts connections, before it accepts any.
    pub(crate) fn say_accepting(&self, number: usize) {
        if let Some(wakes) = self.wakes.get(number) {
            wakes.say_accepting();
        }
    }

    /// Wakes who accepts connections. That is never missed: who accepts has said so before the first connection was accepted, and so before one
    /// ended; and a wake that comes before a wait begins ends it at once.
    fn wake_accepting(&self) {
        for wakes in &self.wakes {
            wakes.wake_accepting();
        }
    }

    /// Returns how many loops there are.
    pub(crate) fn count(&self) -> usize {
        self.wakes.len()
    }

    /// Returns how a loop is reached.
    pub(crate) fn wakes(&self, number: usize) -> Option<&Wakes> {
        self.wakes.get(number)
    }

    /// Gives a connection to the loop of this number, from the one of that, or hands it back where too many wait there.
    pub(crate) fn give<R: Wait>(
        &self,
        rt: &R,
        number: usize,
        given: Given,
        from: usize,
    ) -> Result<(), Given> {
        match self.wakes.get(number) {
            Some(wakes) => wakes.give(rt, given, number == from),
            None => Err(given),
        }
    }

    /// Returns how many loops, from the first on, are given connections by the one that accepts.
    pub(crate) fn at_work(&self) -> AtWork {
        self.at_work
    }

    /// Returns the number of a loop, of so many from the first on, that has nothing to do: the first one, so that no more are woken than are
    /// needed.
    pub(crate) fn free(&self, count: usize) -> Option<usize> {
        self.wakes.iter().take(count).position(Wakes::is_free)
    }

    /// Returns whether one more connection may be open.
    pub(crate) fn has_room(&self) -> bool {
        self.open.has_room()
    }

    /// Counts a connection.
    pub(crate) fn enter(&self) {
        self.open.enter();
    }

    /// Notes that the system refused to accept a connection, and returns whether that was noted, and no connection has ended since.
    pub(crate) fn refuse(&self) -> bool {
        self.open.refuse()
    }

    /// Counts a connection no longer, whose descriptor is free by now. After the last that is no watch all loops are to stop; where one waits to
    /// be accepted for want of room or of a descriptor, the loop that accepts is woken.
    pub(crate) fn leave(&self) {
        if self.open.leave() {
            self.wake_accepting();
        }
        self.stop_if_over();
    }

    /// Counts a connection as a watch.
    pub(crate) fn watch(&self) {
        self.open.watch();
        self.stop_if_over();
    }

    /// Counts it as a watch no longer.
    pub(crate) fn leave_watch(&self) {
        self.open.leave_watch();
    }

    /// Says that no more connections will come.
    pub(crate) fn end(&self) {
        self.open.end();
        self.stop_if_over();
    }

    /// Stops all loops where no connection is open but watches, and no more will come.
    fn stop_if_over(&self) {
        if self.open.is_over() {
            self.stop();
        }
    }
}
