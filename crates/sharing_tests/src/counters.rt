//! A number under a baton, to which each entry adds one.
ghost use Rattle.std.specs.Prelude.{◌≡◌, IfSome, true};
ghost use Rattle.baton.specs.Batons.{IsFree};

use baton::{Baton, EntryMade, Law};
use std::sync::Wait;
use std::thread;
use std::time::{Clock, Duration};

/// The right to take the number.
pub(crate) type Pass = baton::Pass<u64, Counting>;

/// A number that begins with 0, and is how many entries there are.
pub(crate) struct Counting;

impl Law<u64> for Counting {
    ghost use Rattle.std.specs.Prelude.{◌≡◌, ◌+◌, length, ⊤};

    type Entry = ();

    ghost opens = { λ n. n ≡ 0 };

    ghost gives = { λ n entries. n + length entries };

    ghost follows = { λ before name e. ⊤ };
}

/// One more.
struct OneMore;

impl EntryMade<()> for OneMore {
    ghost use Rattle.std.specs.Prelude.{Some};

    ghost entry = { Some tt };
}

/// The same again.
struct Unchanged;

impl EntryMade<()> for Unchanged {
    ghost use Rattle.std.specs.Prelude.{None};

    ghost entry = { None };
}

/// Adds one, and returns the sum. It adds nothing to the greatest number.
pub(crate) fn add_one<R: Wait>(rt: &R, baton: &Baton<u64, Counting>, pass: &mut Pass) -> u64
    requires { IsFree baton.now pass.old }
    ensures { IsFree baton.now pass.new }
{
    let mut held = baton.take(rt, pass);
    if *held.get() == u64::MAX {
        baton.give::<Unchanged, R>(rt, pass, held);
        return u64::MAX;
    }
    *held.get_mut() += 1;
    let sum = *held.get();
    baton.give::<OneMore, R>(rt, pass, held);
    sum
}

/// Adds one in each of many turns, and gives the pass back.
pub(crate) fn add_many<R: Wait>(
    rt: &R,
    baton: &Baton<u64, Counting>,
    mut pass: Pass,
    turns: u32,
) -> Pass
    requires { IsFree baton.now pass }
    ensures { IsFree baton.now result }
{
    for _ in 0..turns {
        add_one(rt, baton, &mut pass);
    }
    pass
}

/// Takes the number, sleeps for ten milliseconds, and gives it as it was. It gives the pass back.
pub(crate) fn hold<R: Wait + Clock>(rt: &R, baton: &Baton<u64, Counting>, mut pass: Pass) -> Pass
    requires { IsFree baton.now pass }
    ensures { IsFree baton.now result }
{
    let held = baton.take(rt, &mut pass);
    thread::sleep(rt, Duration::from_millis(10));
    baton.give::<Unchanged, R>(rt, &mut pass, held);
    pass
}
