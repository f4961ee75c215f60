//! How a port of the loopback address is listened on, and the line that says which.
ghost use Rattle.std.specs.Prelude.{◌≡◌, IfErr, IfOk, OnOk};
ghost use Rattle.std.specs.Io.KnownBytes.{Appends};
ghost use Rattle.http_event_loop.specs.Serving.{listening};

use crate::fault::{ListenFault, not_listening};
use std::io::Write;
use std::net::{Ipv4Addr, Net, TcpListener, TcpStream};

/// Listens on a port of the loopback address, and returns which it is. With port 0 the system takes a free one.
pub fn bind<R>(rt: &R, port: u16) -> Result<(TcpListener, u16), ListenFault>
where
    R: Net<Listener = TcpListener, Stream = TcpStream>,
{
    let listener = match TcpListener::bind(rt, (Ipv4Addr::LOCALHOST, port)) {
        Ok(listener) => listener,
        Err(error) => return Err(not_listening(&error)),
    };
    match listener.local_addr() {
        Ok(address) => Ok((listener, address.port())),
        Err(error) => Err(not_listening(&error)),
    }
}

/// Writes the line that says which port is listened on, and flushes it.
pub fn announce<W: Write>(writer: &mut W, port: u16) -> Result<(), ListenFault>
    ensures ok { OnOk result (Appends (W.contents writer.old) (W.contents writer.new) (listening port)) }
    ensures fault { IfErr result (λ fault. fault ≡ ListenFault.Write) }
{
    if writeln!(writer, "listening 127.0.0.1:{port}").is_err() || writer.flush().is_err() {
        return Err(ListenFault::Write);
    }
    Ok(())
}

/// Listens on a port of the loopback address and says which it is, and returns it. With port 0 the system takes a free one.
pub fn listen<R, W>(rt: &R, port: u16, writer: &mut W) -> Result<(TcpListener, u16), ListenFault>
where
    R: Net<Listener = TcpListener, Stream = TcpStream>,
    W: Write,
    ensures { IfOk result (λ r. Appends (W.contents writer.old) (W.contents writer.new) (listening r.1)) }
{
    let (listener, taken) = bind(rt, port)?;
    announce(writer, taken)?;
    Ok((listener, taken))
}
