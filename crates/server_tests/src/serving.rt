//! Loops that answer connections side by side, as `kcp serve` runs them.
use http_event_loop::ListenFault;
use kcp_commands::serve;
use kcp_options::ServeOptions;
use std::alloc::Global;
use std::io::{Read, Write};
use std::net::{Ipv4Addr, Net, TcpListener, TcpStream};
use std::time::Duration;
use std::{io, thread};

/// How many seconds a client waits for an answer.
const PATIENCE_SECONDS: u64 = 10;

/// What each client asks.
const LIST: &[u8] = b"GET /api/v1/configmaps HTTP/1.1\r\nHost: localhost\r\n\r\n";

/// What answers begin with.
const YES: &str = "HTTP/1.1 200 OK\r\n";

/// Returns options of a server on a free port.
fn options(threads: usize, requests: u64) -> ServeOptions {
    ServeOptions {
        port: 0,
        window: 16,
        threads,
        requests: Some(requests),
    }
}

/// Returns a stream, and one at which what is written to it comes out.
fn pipe<R: Net<Listener = TcpListener, Stream = TcpStream>>(
    rt: &R,
) -> io::Result<(TcpStream, TcpStream)> {
    let listener = TcpListener::bind(rt, (Ipv4Addr::LOCALHOST, 0))?;
    let near = TcpStream::connect(rt, listener.local_addr()?)?;
    let (far, _) = listener.accept()?;
    Ok((near, far))
}

/// Reads where a server says that it listens, which is all that it says.
fn port_of(said: &TcpStream) -> io::Result<u16> {
    let mut port: u16 = 0;
    let mut byte = [0; 1];
    let mut reader = said;
    for at in 0..64 {
        reader.read_exact(&mut byte)?;
        if byte[0] == b'\n' {
            break;
        }
        if at >= 20 {
            port = port
                .wrapping_mul(10)
                .wrapping_add(u16::from(byte[0].wrapping_sub(b'0')));
        }
    }
    Ok(port)
}

/// Returns a connection to a port.
fn connected<R: Net<Listener = TcpListener, Stream = TcpStream>>(
    rt: &R,
    port: u16,
) -> io::Result<TcpStream> {
    let stream = TcpStream::connect(rt, (Ipv4Addr::LOCALHOST, port))?;
    stream.set_read_timeout(Some(Duration::from_secs(PATIENCE_SECONDS)))?;
    Ok(stream)
}

/// Returns whether a connection is answered.
fn is_answered(alloc: Global, stream: TcpStream) -> bool {
    match io::read_to_string(alloc, stream) {
        Ok(answer) => answer.as_str().starts_with(YES),
        Err(_) => false,
    }
}

/// Begins a request on one connection, and ends it once one on another is answered. It returns whether both are.
fn ask_beside<R: Net<Listener = TcpListener, Stream = TcpStream>>(
    rt: &R,
    alloc: Global,
    said: &TcpStream,
) -> io::Result<[bool; 2]> {
    let port = port_of(said)?;
    let (half, rest) = LIST.split_at(20);
    let mut first = connected(rt, port)?;
    first.write_all(half)?;
    let mut second = connected(rt, port)?;
    second.write_all(LIST)?;
    let beside = is_answered(alloc, second);
    first.write_all(rest)?;
    Ok([is_answered(alloc, first), beside])
}

#[test]
fn a_connection_is_answered_beside_an_unfinished_one(rt: HostRuntime) -> io::Result<()> {
    let (mut near, far) = pipe(&rt)?;
    let (served, answers) = thread::join(
        &rt,
        || serve(&rt, rt.alloc(), options(1, 2), &mut near),
        || ask_beside(&rt, rt.alloc(), &far),
    );
    assert_eq!(rt; (served.is_ok(), answers?), (true, [true; 2]));
    Ok(())
}

/// Asks over so many connections at once, and returns how many are answered.
fn ask_all<R: Net<Listener = TcpListener, Stream = TcpStream>>(
    rt: &R,
    alloc: Global,
    said: &TcpStream,
    count: usize,
) -> io::Result<u64> {
    let port = port_of(said)?;
    let mut streams = Vec::new(alloc);
    for _ in 0..count {
        let mut stream = connected(rt, port)?;
        stream.write_all(LIST)?;
        streams.push(stream)?;
    }
    let mut answered: u64 = 0;
    for stream in streams {
        if is_answered(alloc, stream) {
            answered = answered.saturating_add(1);
        }
    }
    Ok(answered)
}

#[test]
fn the_limit_counts_over_all_loops_and_all_are_joined(rt: HostRuntime) -> io::Result<()> {
    let (mut near, far) = pipe(&rt)?;
    let (served, answered) = thread::join(
        &rt,
        || serve(&rt, rt.alloc(), options(3, 7), &mut near),
        || ask_all(&rt, rt.alloc(), &far, 7),
    );
    assert_eq!(rt; (served.is_ok(), answered?), (true, 7));
    Ok(())
}

#[test]
fn more_loops_than_connections_end(rt: HostRuntime) -> io::Result<()> {
    let (mut near, far) = pipe(&rt)?;
    let (served, answered) = thread::join(
        &rt,
        || serve(&rt, rt.alloc(), options(3, 1), &mut near),
        || ask_all(&rt, rt.alloc(), &far, 1),
    );
    assert_eq!(rt; (served.is_ok(), answered?), (true, 1));
    Ok(())
}

#[test]
fn a_taken_port_is_refused_and_nothing_is_said(rt: HostRuntime) -> io::Result<()> {
    let listener = TcpListener::bind(&rt, (Ipv4Addr::LOCALHOST, 0))?;
    let port = listener.local_addr()?.port();
    let asked = ServeOptions {
        port,
        ..options(1, 1)
    };
    let mut said = Vec::new(rt.alloc());
    let served = serve(&rt, rt.alloc(), asked, &mut said);
    assert_eq!(rt; (served, said.is_empty()), (Err(ListenFault::Listen), true));
    Ok(())
}
