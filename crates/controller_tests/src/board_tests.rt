//! Texts on a board that fail, and come due again.
use crate::assertions::assert_same;
use keyed_board::{Failure, KeyedBoard, Outcome};
use std::alloc::{AllocError, Global};

/// Takes the text that waits, if one does, and gives it back as it went. Returns how long it is until a text comes due.
fn turn(board: &mut KeyedBoard<String>, outcome: Outcome) -> Result<Option<u64>, AllocError> {
    if let Some(key) = board.take()? {
        board.finish(&key, outcome)?;
    }
    Ok(board.until_due())
}

/// Adds a text that is to wait.
fn add(alloc: Global, board: &mut KeyedBoard<String>, name: &str) -> Result<(), AllocError> {
    let key = String::from_str(alloc, name)?;
    board.add_all(std::slice::from_ref(&key))
}

/// Takes a turn for each of these, as it went, and has the time after it come. Returns how long it is until a text comes due after each turn.
fn take_turns(
    alloc: Global,
    board: &mut KeyedBoard<String>,
    turns: &[(Outcome, u64)],
) -> Result<Vec<Option<u64>>, AllocError> {
    let mut waits = Vec::new(alloc);
    for (outcome, now) in turns {
        waits.push(turn(board, *outcome)?)?;
        board.tick(*now)?;
    }
    Ok(waits)
}

/// Has a text go so. Returns how long it waits after each turn.
fn waits(alloc: Global, turns: &[(Outcome, u64)]) -> Result<Vec<Option<u64>>, AllocError> {
    let mut board = KeyedBoard::new(alloc);
    add(alloc, &mut board, "web")?;
    take_turns(alloc, &mut board, turns)
}

/// A server that does not reply.
const NO_REPLY: Outcome = Outcome::Failed(Failure::NoReply);

/// A server that refuses work as too much, and asks to be left alone for two seconds.
const TOO_MUCH: Outcome = Outcome::Failed(Failure::Refused {
    code: 429,
    retry_after: Some(2),
});

/// A conflict, with which a server asks so; that is in the nature of the work.
const CONFLICT: Outcome = Outcome::Failed(Failure::Refused {
    code: 409,
    retry_after: Some(2),
});

/// A server that is away, and asks so.
const AWAY: Outcome = Outcome::Failed(Failure::Refused {
    code: 503,
    retry_after: Some(2),
});

/// A text that fails twice, the second time once its delay is over; 6 milliseconds later none is taken.
const FAILED_TWICE: [(Outcome, u64); 3] = [(NO_REPLY, 5), (NO_REPLY, 11), (NO_REPLY, 11)];

#[test]
fn a_text_that_fails_comes_due_again(rt: HostRuntime) {
    let delays = waits(rt.alloc(), &FAILED_TWICE);
    assert_same(
        &rt,
        &delays.as_deref(),
        &Ok([Some(5), Some(10), Some(4)].as_slice()),
    );
}

/// A text that fails, succeeds for now, and fails again.
const FAILED_ANEW: [(Outcome, u64); 3] = [
    (NO_REPLY, 5),
    (
        Outcome::LookAgain {
            milliseconds: 1_000,
        },
        1_005,
    ),
    (NO_REPLY, 1_005),
];

#[test]
fn a_success_forgets_failures(rt: HostRuntime) {
    let delays = waits(rt.alloc(), &FAILED_ANEW);
    assert_same(
        &rt,
        &delays.as_deref(),
        &Ok([Some(5), Some(1_000), Some(5)].as_slice()),
    );
}

/// A text whose work is refused as too much, as a conflict, and for a fault of the server's.
const REFUSED: [(Outcome, u64); 3] = [(TOO_MUCH, 2_000), (CONFLICT, 2_010), (AWAY, 2_010)];

#[test]
fn a_server_is_left_alone_as_long_as_it_asks(rt: HostRuntime) {
    let delays = waits(rt.alloc(), &REFUSED);
    assert_same(
        &rt,
        &delays.as_deref(),
        &Ok([Some(2_000), Some(10), Some(2_000)].as_slice()),
    );
}

/// Has a text done, and adds one after the shut-down. Returns how many wait in the end, and how long it is until one comes due.
fn end(alloc: Global, board: &mut KeyedBoard<String>) -> Result<(usize, Option<u64>), AllocError> {
    add(alloc, board, "web")?;
    let left = turn(board, Outcome::Done)?;
    board.shut_down();
    add(alloc, board, "api")?;
    Ok((board.len(), left))
}

/// Returns what `end` does of a new board.
fn ended(alloc: Global) -> Result<(usize, Option<u64>), AllocError> {
    let mut board = KeyedBoard::new(alloc);
    end(alloc, &mut board)
}

#[test]
fn a_board_that_is_shut_down_takes_nothing_in(rt: HostRuntime) {
    assert_same(&rt, &ended(rt.alloc()), &Ok((0, None)));
}
