//! Threads that wait at a board: for a text, or until one comes due.
ghost use Rattle.shared_keyed_board.specs.Passes.{IsNewAt};

use crate::assertions::assert_same;
use shared_keyed_board::{BoardPass, SharedKeyedBoard};
use std::alloc::{AllocError, Global};
use std::sync::Wait;
use std::thread;
use std::thread::Threads;
use std::time::{Clock, Duration, Instant};

/// What is done while a thread waits.
#[derive(Clone, Copy)]
enum Cause {
    Add,
    ComesDue,
    GivenBack,
    ShutDown,
    Delay,
}

/// Waits for a text, and gives it back. Returns whether one came.
fn take<R: Wait + Clock>(
    rt: &R,
    board: &SharedKeyedBoard<String>,
    mut pass: BoardPass<String>,
) -> bool
    requires { IsNewAt board.now pass }
{
    match board.take(rt, &mut pass) {
        Ok(Some(hand)) => {
            board.done(rt, &mut pass, hand);
            true
        }
        Ok(None) => false,
        Err(_) => false,
    }
}

/// Rests at a board on which nothing is delayed yet, where a delay is to end that, and else waits for a text. Returns whether one came.
fn rest_or_take<R: Wait + Clock>(
    rt: &R,
    board: &SharedKeyedBoard<String>,
    mut pass: BoardPass<String>,
    cause: Cause,
) -> bool
    requires { IsNewAt board.now pass }
{
    if cause == Cause::Delay {
        board.rest_until_due(rt, &mut pass);
        false
    } else {
        take(rt, board, pass)
    }
}

/// Waits from a while on. Returns whether a text came, and whether the wait was short.
fn wait<R: Wait + Clock>(
    rt: &R,
    board: &SharedKeyedBoard<String>,
    pass: BoardPass<String>,
    cause: Cause,
) -> (bool, bool)
    requires { IsNewAt board.now pass }
{
    thread::sleep(rt, Duration::from_millis(100));
    let start = Instant::now(rt).ok();
    let has_come = rest_or_take(rt, board, pass, cause);
    (has_come, is_short(rt, start))
}

/// Returns whether less than half a minute has passed since a moment.
fn is_short<R: Clock>(rt: &R, start: Option<Instant>) -> bool {
    let Some(start) = start else {
        return false;
    };
    match start.elapsed(rt).ok() {
        Some(passed) => passed < Duration::from_secs(30),
        None => false,
    }
}

/// Does what is to wake who waits, once that sleeps.
fn wake<R: Wait + Clock>(
    rt: &R,
    board: &SharedKeyedBoard<String>,
    mut pass: BoardPass<String>,
    key: &String,
    cause: Cause,
) -> Result<(), AllocError>
    requires { IsNewAt board.now pass }
{
    match cause {
        Cause::Add => {
            pause(rt);
            board.add(rt, &mut pass, key)
        }
        Cause::ComesDue => come_due(rt, board, pass, key),
        Cause::GivenBack => give_back(rt, board, pass, key),
        Cause::ShutDown => {
            pause(rt);
            board.shut_down(rt, &mut pass);
            Ok(())
        }
        Cause::Delay => {
            pause(rt);
            board.add_after(rt, &mut pass, key, 5)
        }
    }
}

/// Rests until who waits sleeps.
fn pause<R: Clock>(rt: &R) {
    thread::sleep(rt, Duration::from_millis(400));
}

/// Delays a text before who waits looks for one, and has it come due.
fn come_due<R: Wait + Clock>(
    rt: &R,
    board: &SharedKeyedBoard<String>,
    mut pass: BoardPass<String>,
    key: &String,
) -> Result<(), AllocError>
    requires { IsNewAt board.now pass }
{
    board.add_after(rt, &mut pass, key, 5)?;
    pause(rt);
    board.tick(rt, &mut pass, 5)
}

/// Takes a text before who waits looks for one, adds it again, and gives it back.
fn give_back<R: Wait + Clock>(
    rt: &R,
    board: &SharedKeyedBoard<String>,
    mut pass: BoardPass<String>,
    key: &String,
) -> Result<(), AllocError>
    requires { IsNewAt board.now pass }
{
    board.add(rt, &mut pass, key)?;
    let Some(hand) = board.try_take(rt, &mut pass)? else {
        return Ok(());
    };
    let again = board.add(rt, &mut pass, key);
    pause(rt);
    board.done(rt, &mut pass, hand);
    again
}

/// Has one thread wait at a board while another does something there. Returns whether a text came to the first, and whether its wait was short.
fn wait_and_wake<R: Threads + Wait + Clock + Sync>(
    rt: &R,
    board: &SharedKeyedBoard<String>,
    first: BoardPass<String>,
    second: BoardPass<String>,
    key: &String,
    cause: Cause,
) -> Result<(bool, bool), AllocError>
    requires first { IsNewAt board.now first }
    requires second { IsNewAt board.now second }
{
    let (told, done) = thread::join(
        rt,
        || -> (bool, bool)
            requires { IsNewAt board.now first }
        { wait(rt, board, first, cause) },
        || -> Result<(), AllocError>
            requires { IsNewAt board.now second }
        { wake(rt, board, second, key, cause) },
    );
    done?;
    Ok(told)
}

/// Has two threads share a new board, of which one waits. Returns what `wait_and_wake` does.
fn woken<R: Threads + Wait + Clock + Sync>(
    rt: &R,
    alloc: Global,
    cause: Cause,
) -> Result<(bool, bool), AllocError> {
    let key = String::from_str(alloc, "web")?;
    let (board, mut passes) = SharedKeyedBoard::<String>::open(alloc, 2)?;
    let (Some(first), Some(second)) = (passes.pop(), passes.pop()) else {
        return Ok((false, false));
    };
    wait_and_wake(rt, &board, first, second, &key, cause)
}

#[test]
fn an_add_wakes_who_waits(rt: HostRuntime) {
    assert_same(&rt, &woken(&rt, rt.alloc(), Cause::Add), &Ok((true, true)));
}

#[test]
fn a_text_that_comes_due_wakes_who_waits(rt: HostRuntime) {
    assert_same(
        &rt,
        &woken(&rt, rt.alloc(), Cause::ComesDue),
        &Ok((true, true)),
    );
}

#[test]
fn a_text_that_is_given_back_wakes_who_waits(rt: HostRuntime) {
    assert_same(
        &rt,
        &woken(&rt, rt.alloc(), Cause::GivenBack),
        &Ok((true, true)),
    );
}

#[test]
fn a_shut_down_wakes_who_waits(rt: HostRuntime) {
    assert_same(
        &rt,
        &woken(&rt, rt.alloc(), Cause::ShutDown),
        &Ok((false, true)),
    );
}

#[test]
fn a_delay_ends_a_rest(rt: HostRuntime) {
    assert_same(
        &rt,
        &woken(&rt, rt.alloc(), Cause::Delay),
        &Ok((false, true)),
    );
}
