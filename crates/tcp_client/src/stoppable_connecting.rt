//! Connections over TCP that a stop ends.
ghost use Rattle.std.specs.Prelude.{◌≡◌, ◌-◌, ◌/◌, ◌^◌, min};
ghost use Rattle.std.specs.Duration.{as_nanos};

use crate::connecting::{TcpConnect, go_on};
use crate::patient::{PIECE_MILLISECONDS, Patient};
use crate::time_limits::TimeLimits;
use api_client::Connect;
use std::alloc::Global;
use std::io;
use std::io::BufReader;
use std::net::{Net, TcpStream, ToSocketAddrs};
use std::time::{Clock, Duration};
use wakeups::Stop;

/// Returns how many whole seconds a time has, or the greatest number where it has more.
fn whole_seconds(time: Duration) -> u32
    ensures { result ≡ min (as_nanos time / 1_000_000_000) (2 ^ 32 - 1) }
{
    u32::try_from(time.as_secs()).unwrap_or(u32::MAX)
}

/// What reads a connection.
type Reading<'a, R> = BufReader<Patient<'a, R, TcpStream>>;

/// Connects to a server over TCP, again for each request, until a stop: no connection is begun from then on, and who waits for a byte waits a quarter
/// of a second more at most. A stop is looked at before the server's name is looked up, before each of its addresses is tried, and once there is a
/// connection: nothing is written over one that comes about after it, and the error is `ErrorKind::Interrupted`. It ends neither the look-up of a
/// name, which takes what the system lets it, nor a connect, which may take its time limit for each address, nor a write, which may take its limit
/// for each part that is taken.
#[derive(Drop)]
pub struct StoppableConnect<'a, R, A: Drop> {
    rt: &'a R,
    alloc: Global,
    connector: TcpConnect<'a, R, A>,
    /// How many seconds a read waits for a byte.
    seconds: u32,
    stop: &'a Stop,
}

impl<'a, R, A: Drop> StoppableConnect<'a, R, A> {
    ghost use Rattle.std.specs.Prelude.{◌≡◌, ◌-◌, ◌/◌, ◌^◌, max, min};
    ghost use Rattle.std.specs.Duration.{as_nanos};
    ghost use Rattle.tcp_client.specs.Connections.{limits_of, server_of, connector_of, seconds_of};

    /// Returns what connects to a server, named as for `TcpConnect`, within these time limits. For reads whole seconds count, one at least and
    /// 2^32 - 1 at most.
    pub fn new(
        rt: &'a R,
        alloc: Global,
        server: A,
        limits: TimeLimits,
        stop: &'a Stop,
    ) -> StoppableConnect<'a, R, A>
        ensures server { server_of (connector_of result) ≡ server }
        ensures limits { limits_of (connector_of result) ≡ limits }
        ensures seconds { seconds_of result ≡ max (min (as_nanos limits.read / 1_000_000_000) (2 ^ 32 - 1)) 1 }
    {
        StoppableConnect {
            rt,
            alloc,
            connector: TcpConnect::new(rt, alloc, server, limits),
            seconds: whole_seconds(limits.read).max(1),
            stop,
        }
    }
}

impl<'a, R: Net<Stream = TcpStream> + Clock, A: ToSocketAddrs> StoppableConnect<'a, R, A> {
    /// Returns both ends of a new connection, of which nothing is read any more after so long.
    fn connect_for(&self, time: Duration) -> io::Result<(Reading<'a, R>, TcpStream)> {
        go_on(self.stop)?;
        let writer = self
            .connector
            .open(Duration::from_millis(PIECE_MILLISECONDS), Some(self.stop))?;
        go_on(self.stop)?;
        let stream = writer.try_clone()?;
        let patient = Patient::new(self.rt, stream, self.stop, self.seconds, time);
        let reader = BufReader::new(self.alloc, patient)?;
        Ok((reader, writer))
    }
}

impl<'a, R: Net<Stream = TcpStream> + Clock, A: ToSocketAddrs> Connect
    for StoppableConnect<'a, R, A> {
    type Reader = Reading<'a, R>;

    type Writer = TcpStream;

    fn connect(&mut self) -> io::Result<(Reading<'a, R>, TcpStream)> {
        self.connect_for(self.connector.limits().reply)
    }

    fn connect_to_watch(&mut self) -> io::Result<(Reading<'a, R>, TcpStream)> {
        self.connect_for(self.connector.limits().watch)
    }
}
