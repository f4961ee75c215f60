//! What passes do with a baton.
ghost use Rattle.std.specs.Prelude.{◌≡◌, true, false, Some, IfSome};
ghost use Rattle.crossbeam_queue.specs.Passes.{view, IsSamePass};
ghost use Rattle.baton.specs.Marks.{entries};
ghost use Rattle.baton.specs.Passes.{Taken, given, Met};
ghost use Rattle.baton.specs.Batons.{IsOf, IsFree};

use crate::batons::Baton;
use crate::held::Held;
use crate::laws::{EntryMade, Law};
use crate::rules::{Gives, Hosts, Meets, Parts, Spares, Takes};
use crate::views::PassView;
use crossbeam_queue::Pass;
use std::mem;
use std::sync::Wait;

impl<T: Drop, L: Law<T>> Baton<T, L> {
    /// Takes the state, and sleeps while another pass holds it. The pass learns the whole history, and the state is what this
    /// history gives.
    pub fn take<R: Wait>(&self, rt: &R, pass: &mut Pass<T, PassView<T, L::Entry>>) -> Held<T>
        requires { IsFree self.now pass.old }
        ensures pass { IsSamePass pass.old pass.new × IsOf self.now pass.new }
        ensures taken { Taken L.opens L.gives L.follows (view pass.old) result (view pass.new) }
    {
        if let Some(state) = self.queue.pop_as::<Takes<L>, R>(rt, pass) {
            return Held::new(state);
        }
        self.gives.enter();
        let held = self.wait(rt, pass);
        self.gives.leave();
        held
    }

    /// Takes the state, and sleeps between two tries.
    fn wait<R: Wait>(&self, rt: &R, pass: &mut Pass<T, PassView<T, L::Entry>>) -> Held<T>
        requires { IsFree self.now pass.old }
        ensures pass { IsSamePass pass.old pass.new × IsOf self.now pass.new }
        ensures taken { Taken L.opens L.gives L.follows (view pass.old) result (view pass.new) }
    {
        for _ in rt.forever() {
            let seen = self.gives.count(rt);
            if let Some(state) = self.queue.pop_as::<Takes<L>, R>(rt, pass) {
                return Held::new(state);
            }
            self.gives.wait_past(rt, seen);
        }
        unreachable!()
    }

    /// Gives the state back, and wakes a thread that sleeps for it. The history is one entry longer at most: the entry may
    /// follow it, and with it gives the state.
    pub fn give<M: EntryMade<L::Entry>, R: Wait>(
        &self,
        rt: &R,
        pass: &mut Pass<T, PassView<T, L::Entry>>,
        held: Held<T>,
    )
        requires pass { IsOf self.now pass.old }
        requires holds { (view pass.old).own.holds ≡ true }
        requires follows { IfSome M.entry (λ e. L.follows (view pass.old).own.seen (view pass.old).own.name e) }
        requires state { (opening : T) → (view pass.old).own.opening ≡ Some opening
            → held ≡ L.gives opening (entries (given M.entry (view pass.old)).own.seen) }
        ensures pass { IsSamePass pass.old pass.new × IsFree self.now pass.new }
        ensures given { view pass.new ≡ given M.entry (view pass.old) }
    {
        match self
            .queue
            .push_as::<Gives<L, M>, R>(rt, pass, held.into_state())
        {
            Ok(()) => self.gives.notify(rt),
            Err(_) => unreachable!(),
        }
    }
}

impl<T: Drop, L: Law<T>> Baton<T, L> {
    /// Compares what two passes know: one has seen all that the other has, and in it stands what both made. It waits for
    /// nobody and changes nothing.
    pub fn meet(
        &self,
        one: &mut Pass<T, PassView<T, L::Entry>>,
        other: &mut Pass<T, PassView<T, L::Entry>>,
    )
        requires one { IsFree self.now one.old }
        requires other { IsFree self.now other.old }
        ensures passes { IsFree self.now one.new × IsFree self.now other.new }
        ensures one { view one.new ≡ view one.old }
        ensures other { view other.new ≡ view other.old }
        ensures met { Met L.opens L.gives L.follows (view one.new).own (view other.new).own }
    {
        let spare = self.queue.another::<Spares>(one);
        let guest = mem::replace(other, spare);
        self.queue.absorb::<Hosts>(one, guest);
        self.queue.learn_as::<Meets<L>>(one);
        *other = self.queue.another::<Parts>(one);
    }
}
