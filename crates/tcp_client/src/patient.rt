//! A reader that tries again where nothing came in time, until a stop or for so long.
ghost use Rattle.std.specs.Prelude.{◌≡◌, ◌-◌, ◌/◌, ◌^◌, min};
ghost use Rattle.std.specs.Duration.{as_nanos};

use crate::wall_clock::WallClock;
use std::io;
use std::io::{ErrorKind, Read};
use std::time::{Clock, Duration};
use wakeups::Stop;

/// How many milliseconds a stream whose reads end without bytes is to wait each time: let it have this read timeout.
pub const PIECE_MILLISECONDS: u64 = 250;

/// Reads a stream whose calls end after a quarter of a second without bytes (`PIECE_MILLISECONDS`): again and again, until bytes come, so many calls
/// in a row gave none, its time as a whole is over, or a stop is asked for. So a thread that waits for a peer stops within a quarter of a second,
/// and one that waits for a silent peer gives it up, and so it does in the end with one that sends a byte now and then. What is given up ends with
/// `ErrorKind::TimedOut`.
#[derive(Drop)]
pub struct Patient<'a, R, S: Drop> {
    stream: S,
    stop: &'a Stop,
    clock: WallClock<'a, R>,
    /// How many calls in a row may give nothing.
    most: u64,
    /// After how many milliseconds nothing is read any more.
    time: u64,
}

/// Returns whether a call gave nothing for now: its time was over, or it was interrupted (std, `TcpStream::set_read_timeout`).
fn is_for_now(error: &io::Error) -> bool {
    matches!(
        error.kind(),
        ErrorKind::WouldBlock | ErrorKind::TimedOut | ErrorKind::Interrupted
    )
}

/// Returns how many whole milliseconds a time has, or the greatest number where it has more.
fn whole_milliseconds(time: Duration) -> u64
    ensures { result ≡ min (as_nanos time / 1_000_000) (2 ^ 64 - 1) }
{
    u64::try_from(time.as_millis()).unwrap_or(u64::MAX)
}

impl<'a, R: Clock, S: Drop> Patient<'a, R, S> {
    ghost use Rattle.std.specs.Prelude.{◌≡◌, ◌<◌, ◌-◌, ◌*◌, ◌/◌, ◌^◌, min, OnOk};
    ghost use Rattle.std.specs.Duration.{as_nanos};
    ghost use Rattle.tcp_client.specs.Patience.{calls_of, passed_at, time_of};

    /// Returns what reads a stream until a stop, gives up after so many seconds without a byte, and in all after this time from now on, in whole
    /// milliseconds.
    pub fn new(
        rt: &'a R,
        stream: S,
        stop: &'a Stop,
        seconds: u32,
        time: Duration,
    ) -> Patient<'a, R, S>
        ensures calls { calls_of result ≡ seconds * 4 }
        ensures time { time_of result ≡ min (as_nanos time / 1_000_000) (2 ^ 64 - 1) }
        ensures begun { passed_at result ≡ 0 }
    {
        Patient {
            stream,
            stop,
            clock: WallClock::new(rt),
            most: u64::from(seconds) * (1000 / PIECE_MILLISECONDS),
            time: whole_milliseconds(time),
        }
    }

    /// Looks at the clock and at the stop, and returns an error where the time is over, or all is to stop.
    fn go_on(&mut self) -> io::Result<()>
        ensures in_time { OnOk result (passed_at self.new < time_of self.new) }
        ensures time { time_of self.new ≡ time_of self.old }
    {
        if self.clock.milliseconds() < self.time && !self.stop.is_stopped() {
            Ok(())
        } else {
            Err(io::Error::from(ErrorKind::TimedOut))
        }
    }
}

impl<R: Clock, S: Read + Drop> Read for Patient<'_, R, S> {
    ghost use Rattle.std.specs.Prelude.{◌<◌, OnOk, None};
    ghost use Rattle.std.specs.Io.{ReadsAtMost};
    ghost use Rattle.std.specs.Io.KnownBytes.{ReadConsumes};
    ghost use Rattle.tcp_client.specs.Patience.{passed_at, time_of};

    fn read(&mut self, buf: &mut [u8]) -> io::Result<usize>
        ensures bound { ReadsAtMost result buf.new }
        ensures bytes { ReadConsumes None None result buf.new }
        ensures in_time { OnOk result (passed_at self.new < time_of self.new) }
    {
        for _ in 0..self.most {
            self.go_on()?;
            match self.stream.read(buf) {
                Ok(n) => return Ok(n),
                Err(error) => {
                    if !is_for_now(&error) {
                        return Err(error);
                    }
                }
            }
        }
        Err(io::Error::from(ErrorKind::TimedOut))
    }
}
