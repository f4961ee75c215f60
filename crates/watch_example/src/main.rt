//! Follows a server: `watch_example --server HOST:PORT KIND [--namespace NAME] [--selector TEXT] [--until REVISION]` keeps a copy of the
//! objects of a kind, of all or of those of a namespace and with the labels that a selector asks for, writes a line for each change that it
//! takes in, and one for each publish. At the revision it writes what it has, and ends.
#![tactic(auto)]

mod asked;
mod printing;

use api_client::Remote;
use asked::Arguments;
use list_and_watch::Follower;
use plain_informer::PlainInformer;
use printing::Printer;
use request_encoding::{Scope, ScopeFault};
use std::io::{BufWriter, ErrorKind};
use std::process::ExitCode;
use std::{env, io};
use tcp_client::{TcpConnect, TimeLimits, WallClock};

/// Follows what is asked of the server, and returns whether all lines were written.
fn run(rt: &HostRuntime, asked: &Arguments<'_>, scope: Scope) -> io::Result<bool> {
    let alloc = rt.alloc();
    let connector = TcpConnect::new(rt, alloc, asked.server, TimeLimits::usual());
    let writer = BufWriter::new(alloc, io::writer(rt))?;
    let mut printer = Printer::new(alloc, writer, asked.kind, asked.until);
    list_and_watch::follow(
        alloc,
        asked.kind,
        &mut Follower::streaming(alloc, asked.kind, PlainInformer::new(alloc)),
        &mut Remote::within(connector, scope),
        &mut WallClock::new(rt),
        &mut printer,
    );
    Ok(printer.is_whole())
}

/// Returns what the words ask and the scope of it, if they ask something.
fn understood<'a>(
    rt: &HostRuntime,
    words: &'a [String],
) -> io::Result<Option<(Arguments<'a>, Scope)>> {
    let Some(asked) = Arguments::parse(words) else {
        return Ok(None);
    };
    match Scope::new(rt.alloc(), asked.namespace, asked.selector) {
        Ok(scope) => Ok(Some((asked, scope))),
        Err(ScopeFault::NoMemory) => Err(io::Error::from(ErrorKind::OutOfMemory)),
        Err(ScopeFault::Namespace | ScopeFault::Selector) => Ok(None),
    }
}

fn main(rt: HostRuntime) -> io::Result<ExitCode> {
    let mut words = Vec::new(rt.alloc());
    for word in env::args(&rt)?.skip(1) {
        words.push(word)?;
    }
    let Some((asked, scope)) = understood(&rt, &words)? else {
        eprintln!(rt; "watch_example: bad arguments")?;
        return Ok(ExitCode::from(2));
    };
    if run(&rt, &asked, scope)? {
        Ok(ExitCode::SUCCESS)
    } else {
        eprintln!(rt; "watch_example: write")?;
        Ok(ExitCode::from(1))
    }
}
