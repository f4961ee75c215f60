//! Connections over TCP.
ghost use Rattle.std.specs.Prelude.{◌≡◌, IfErr};
ghost use Rattle.std.specs.IoError.{error_kind};

use crate::time_limits::TimeLimits;
use api_client::Connect;
use std::alloc::Global;
use std::io;
use std::io::{BufReader, ErrorKind};
use std::net::{Net, TcpStream, ToSocketAddrs};
use std::time::Duration;
use wakeups::Stop;

/// Returns an error, `ErrorKind::Interrupted`, where a stop was asked for.
pub(crate) fn go_on(stop: &Stop) -> io::Result<()>
    ensures { IfErr result (λ e. error_kind e ≡ ErrorKind.Interrupted) }
{
    if stop.is_stopped() {
        Err(io::Error::from(ErrorKind::Interrupted))
    } else {
        Ok(())
    }
}

/// Connects to a server over TCP, again for each request. Where a host's name has several addresses, they are tried in turn. How long the look-up
/// of a name takes is up to the system, as it is set up: no time limit ends it. Nor is a peer given up that sends a byte now and then:
/// `StoppableConnect` gives it up.
#[derive(Drop)]
pub struct TcpConnect<'a, R, A: Drop> {
    rt: &'a R,
    alloc: Global,
    server: A,
    limits: TimeLimits,
}

impl<'a, R, A: Drop> TcpConnect<'a, R, A> {
    ghost use Rattle.std.specs.Prelude.{◌≡◌};
    ghost use Rattle.tcp_client.specs.Connections.{limits_of, server_of};

    /// Returns what connects to a server within these time limits. The server is named as for `TcpStream::connect`: `(Ipv4Addr::LOCALHOST, port)`
    /// is a port of this machine, and `"HOST:PORT"` one of any.
    pub fn new(rt: &'a R, alloc: Global, server: A, limits: TimeLimits) -> TcpConnect<'a, R, A>
        ensures server { server_of result ≡ server }
        ensures limits { limits_of result ≡ limits }
    {
        TcpConnect {
            rt,
            alloc,
            server,
            limits,
        }
    }

    /// Returns how long its connections wait.
    pub(crate) fn limits(&self) -> TimeLimits
        ensures { result ≡ limits_of self.now }
    {
        self.limits
    }
}

impl<R: Net<Stream = TcpStream>, A: ToSocketAddrs> TcpConnect<'_, R, A> {
    /// Returns a stream to the first address of the server that takes a connection in time; where none does, the error of the last. Where there is
    /// a stop, it is looked at before each address.
    fn reach(&self, stop: Option<&Stop>) -> io::Result<TcpStream> {
        let mut last = io::Error::from(ErrorKind::AddrNotAvailable);
        for address in self.server.to_socket_addrs(self.rt)? {
            if let Some(stop) = stop {
                go_on(stop)?;
            }
            match TcpStream::connect_timeout(self.rt, &address, self.limits.connect) {
                Ok(stream) => return Ok(stream),
                Err(error) => last = error,
            }
        }
        Err(last)
    }

    /// Returns a new connection, whose reads wait so long for a byte. Where there is a stop, none is made to an address once it is asked for.
    pub(crate) fn open(&self, read: Duration, stop: Option<&Stop>) -> io::Result<TcpStream> {
        let stream = self.reach(stop)?;
        stream.set_nodelay(true)?;
        stream.set_read_timeout(Some(read))?;
        stream.set_write_timeout(Some(self.limits.write))?;
        Ok(stream)
    }
}

impl<R: Net<Stream = TcpStream>, A: ToSocketAddrs> Connect for TcpConnect<'_, R, A> {
    type Reader = BufReader<TcpStream>;

    type Writer = TcpStream;

    fn connect(&mut self) -> io::Result<(BufReader<TcpStream>, TcpStream)> {
        let writer = self.open(self.limits.read, None)?;
        let reader = BufReader::new(self.alloc, writer.try_clone()?)?;
        Ok((reader, writer))
    }

    fn connect_to_watch(&mut self) -> io::Result<(BufReader<TcpStream>, TcpStream)> {
        self.connect()
    }
}
