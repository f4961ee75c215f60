//! What asks for a stop, each in a thread of its own.
use std::io::{ErrorKind, Input, Read};
use std::sync::Wait;
use std::time::Clock;
use wakeups::Stop;

/// How many bytes of standard input are read at a time.
const PIECE: usize = 4096;

/// How many milliseconds a second has.
const MILLISECONDS: u64 = 1000;

/// Reads until there is no more, or it cannot be read on, and keeps nothing of it.
fn read_away<R: Read>(input: &mut R) {
    let mut piece = [0u8; PIECE];
    for _ in 0..u64::MAX {
        match input.read(&mut piece) {
            Ok(0) => return,
            Ok(_) => {}
            Err(error) => match error.kind() {
                ErrorKind::Interrupted => {}
                _ => return,
            },
        }
    }
}

/// Reads standard input until it ends or its device fails, whatever comes, and then asks for a stop. It takes no memory.
pub fn stop_at_end_of_input<R: Input>(rt: &R, stop: &Stop) {
    let mut input = rt.reader();
    read_away(&mut input);
    stop.stop();
}

/// Waits for so many seconds, or until a stop is asked for, and then asks for one. It reads nothing, and takes no memory. Where the clock cannot be
/// read it may ask early.
pub fn stop_after<R: Wait + Clock>(rt: &R, seconds: u64, stop: &Stop) {
    stop.rest(rt, seconds.saturating_mul(MILLISECONDS));
    stop.stop();
}
