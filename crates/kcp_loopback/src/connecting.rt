//! Connections to a server of the loopback address.
use crate::heard::Heard;
use crate::reach::Reach;
use crate::telling::Teller;
use crate::trouble::Trouble;
use api_client::Connect;
use std::alloc::Global;
use std::io;
use std::io::{BufReader, ErrorKind};
use std::net::{Ipv4Addr, Net, SocketAddr, SocketAddrV4, TcpStream};
use std::time::{Clock, Duration};
use tcp_client::patient::PIECE_MILLISECONDS;
use tcp_client::{Patient, TimeLimits};
use wakeups::Stop;

/// After how many seconds without a byte a connection is given up.
const PATIENCE_SECONDS: u32 = 60;

/// How many milliseconds a try to connect takes at most: after each it is looked whether all is to stop.
const TRY_MILLISECONDS: u64 = 250;

/// How often it is tried: for ten seconds.
const TRIES: u32 = 40;

/// What reads a connection.
type Reading<'a, R> = BufReader<Heard<'a, R, Patient<'a, R, TcpStream>>>;

/// Connects to a server of the loopback address, again for each request, until a stop.
#[derive(Drop)]
pub struct LoopbackConnector<'a, R> {
    rt: &'a R,
    alloc: Global,
    port: u16,
    stop: &'a Stop,
    reach: &'a Reach,
}

impl<'a, R> LoopbackConnector<'a, R> {
    /// Returns what connects to a port.
    pub fn new(
        rt: &'a R,
        alloc: Global,
        port: u16,
        stop: &'a Stop,
        reach: &'a Reach,
    ) -> LoopbackConnector<'a, R> {
        LoopbackConnector {
            rt,
            alloc,
            port,
            stop,
            reach,
        }
    }
}

impl<'a, R: Net<Stream = TcpStream> + Eprint> LoopbackConnector<'a, R> {
    /// Returns a stream to the port. Where the system does not make one at once, as where too many wait to be accepted, it is tried for ten seconds,
    /// or until a stop.
    fn connect_in_time(&self) -> io::Result<TcpStream> {
        let address = SocketAddr::V4(SocketAddrV4::new(Ipv4Addr::LOCALHOST, self.port));
        let time = Duration::from_millis(TRY_MILLISECONDS);
        for _ in 0..TRIES {
            if self.stop.is_stopped() {
                return Err(io::Error::from(ErrorKind::Interrupted));
            }
            match TcpStream::connect_timeout(self.rt, &address, time) {
                Ok(stream) => return Ok(stream),
                Err(error) => {
                    if error.kind() != ErrorKind::TimedOut {
                        return Err(error);
                    }
                }
            }
        }
        Err(io::Error::from(ErrorKind::TimedOut))
    }

    /// Returns a stream to the port, and notes whether there is one.
    fn reach(&self) -> io::Result<TcpStream> {
        let reached = self.connect_in_time();
        match &reached {
            Ok(_) => self.reach.note_reached(),
            Err(error) => self.note_failed(error),
        }
        reached
    }

    /// Notes that there is no stream, unless all is to stop. Where nobody listens any more the server has ended, and all who ask it stop.
    fn note_failed(&self, error: &io::Error) {
        if self.stop.is_stopped() {
            return;
        }
        if error.kind() == ErrorKind::ConnectionRefused && self.reach.note_refused() {
            self.stop.stop();
        }
        self.teller().note(Trouble::of_error(error));
    }

    /// Returns what says on standard error what keeps the server from answering.
    pub(crate) fn teller(&self) -> Teller<'a, R> {
        Teller::new(self.rt, self.alloc, self.port, self.reach)
    }

    /// Looks whether the server is still there, unless all is to stop, and returns whether it is.
    pub(crate) fn look(&self) -> bool {
        !self.stop.is_stopped() && self.reach().is_ok()
    }
}

impl<'a, R: Net<Stream = TcpStream> + Eprint + Clock> LoopbackConnector<'a, R> {
    /// Prepares a stream, and returns what reads it, for so long.
    fn reader_of(&self, writer: &TcpStream, time: Duration) -> io::Result<Reading<'a, R>> {
        writer.set_nodelay(true)?;
        writer.set_read_timeout(Some(Duration::from_millis(PIECE_MILLISECONDS)))?;
        writer.set_write_timeout(Some(Duration::from_secs(u64::from(PATIENCE_SECONDS))))?;
        let stream = writer.try_clone()?;
        let patient = Patient::new(self.rt, stream, self.stop, PATIENCE_SECONDS, time);
        BufReader::new(self.alloc, Heard::new(patient, self.teller()))
    }

    /// Returns both ends of a new connection, of which nothing is read any more after so long.
    fn connect_for(&self, time: Duration) -> io::Result<(Reading<'a, R>, TcpStream)> {
        if self.stop.is_stopped() {
            return Err(io::Error::from(ErrorKind::Interrupted));
        }
        let writer = self.reach()?;
        match self.reader_of(&writer, time) {
            Ok(reader) => {
                self.teller().note_ready();
                Ok((reader, writer))
            }
            Err(error) => {
                self.teller().note(Trouble::of_error(&error));
                Err(error)
            }
        }
    }
}

impl<'a, R: Net<Stream = TcpStream> + Eprint + Clock> Connect for LoopbackConnector<'a, R> {
    type Reader = Reading<'a, R>;

    type Writer = TcpStream;

    fn connect(&mut self) -> io::Result<(Reading<'a, R>, TcpStream)> {
        self.connect_for(TimeLimits::usual().reply)
    }

    fn connect_to_watch(&mut self) -> io::Result<(Reading<'a, R>, TcpStream)> {
        self.connect_for(TimeLimits::usual().watch)
    }
}
