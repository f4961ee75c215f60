//! The control plane's program: `kcp replay` answers the request lines of its standard input, `kcp simulate` takes the steps of a
//! simulated control plane that lines ask for, `kcp serve` answers the requests that come over HTTP/1.1, `kcp control` runs the controllers at
//! such a server, and `kcp all` is both in one.
#![tactic(auto)]

ghost use Rattle.std.specs.Prelude.{◌≡◌, OnOk, IfErr, IfSome, true};
ghost use Rattle.chunked.specs.Devices.{device_of, has_failed};
ghost use Rattle.kcp.specs.Faults.{all_fault_text, fault_text, relay_fault_text, serve_fault_text};
ghost use Rattle.sim_service.specs.Laws as simulated;

use chunked::Watched;
use http_event_loop::ListenFault;
use kcp_commands::{AllFault, all, control, serve};
use kcp_lines::{RelayFault, replay};
use kcp_options::{AllOptions, Mistake, ServeOptions, Subcommand, Usage};
use line_service::RunFault;
use std::alloc::Global;
use std::io::{BufRead, BufReader, BufWriter, Eprint, ErrorKind, Printer, StdinLock, Write};
use std::net::{Ipv4Addr, Net, TcpListener, TcpStream};
use std::process::ExitCode;
use std::sync::Wait;
use std::thread::Threads;
use std::time::Clock;
use std::{env, io};

/// What it is called that a port cannot be listened on.
const LISTEN: &str = "listen";

/// What is said where a server with its controllers has ended with an input of no line.
const NO_INPUT: &[u8] =
    b"kcp: all ended with its input, which was empty (serve and control read none)\n";

/// What reads standard input, and what writes to standard output.
type StandardLines<'a> = (
    BufReader<StdinLock<'a>>,
    BufWriter<Printer<'a, HostRuntime>>,
);

/// Takes the steps of a simulated control plane that the lines ask for, one after another, and writes what is told of each and nothing
/// else. Each outcome is flushed before the next line is waited for.
///
/// A request for which there is no memory is answered 503, by a line that takes none, and changes nothing. Where there is none for any other
/// step, the run ends.
///
/// At an error no step after the one at which the error came is taken, and the outcomes of those before it were written whole. That the reader
/// or the writer failed is the error only where its flag is up.
pub fn simulate<R: BufRead + Drop, W: Write + Drop>(
    alloc: Global,
    reader: &mut Watched<R>,
    writer: &mut Watched<W>,
) -> Result<(), RunFault>
    ensures ok { OnOk result (IfSome (R.remaining (device_of reader.old)) (simulated.AnswersAll (W.contents (device_of writer.old)) (W.contents (device_of writer.new)))) }
    ensures ended { IfErr result (λ fault. IfSome (R.remaining (device_of reader.old)) (simulated.AnswersSome fault (W.contents (device_of writer.old)) (W.contents (device_of writer.new)))) }
    ensures reader { IfErr result (λ fault. fault ≡ RunFault.Read → has_failed reader.new ≡ true) }
    ensures writer { IfErr result (λ fault. fault ≡ RunFault.Write → has_failed writer.new ≡ true) }
{
    sim_service::simulate(alloc, reader, writer)
}

/// Returns the words after the program's name. The error is running out of memory, or a word that is no text.
fn words_of(rt: &HostRuntime) -> io::Result<Vec<String>> {
    let mut words = Vec::new(rt.alloc());
    for word in env::args(rt)?.skip(1) {
        words.push(word)?;
    }
    Ok(words)
}

/// Says how the program is used, where the words ask for that, or else what is not understood of them.
fn tell_usage(rt: &HostRuntime, words: &[String]) -> io::Result<()> {
    if let Some(usage) = Usage::asked(words) {
        return print!(rt; "{}", usage.text());
    }
    let mistake = Mistake::of(words);
    if let Some(word) = mistake.word {
        println!(rt; "not understood: {word}\n")?;
    }
    print!(rt; "{}", mistake.usage.text())
}

/// Says that the words ask no command.
fn refuse(rt: &HostRuntime) -> io::Result<ExitCode> {
    eprintln!(rt; "kcp: bad arguments")?;
    Ok(ExitCode::from(2))
}

/// Returns what reads standard input, and what writes to standard output, if there is memory for both.
fn standard_lines(rt: &HostRuntime) -> Result<StandardLines<'_>, RunFault> {
    match (
        BufReader::new(rt.alloc(), rt.reader()),
        BufWriter::new(rt.alloc(), io::writer(rt)),
    ) {
        (Ok(reader), Ok(writer)) => Ok((reader, writer)),
        _ => Err(RunFault::Want),
    }
}

/// Answers the request lines of standard input on standard output.
fn replay_standard_input(rt: &HostRuntime) -> Result<(), RunFault> {
    let (reader, writer) = standard_lines(rt)?;
    replay(
        rt.alloc(),
        &mut Watched::new(reader),
        &mut Watched::new(writer),
    )
}

/// Takes the steps that the lines of standard input ask for, and tells them on standard output.
fn simulate_standard_input(rt: &HostRuntime) -> Result<(), RunFault> {
    let (reader, writer) = standard_lines(rt)?;
    simulate(
        rt.alloc(),
        &mut Watched::new(reader),
        &mut Watched::new(writer),
    )
}

/// Returns what a fault is called on standard error.
fn fault_name(fault: RunFault) -> &'static str
    ensures { result.now ≡ fault_text fault }
{
    match fault {
        RunFault::Read => "read",
        RunFault::Write => "write",
        RunFault::Want => "no memory",
    }
}

/// Returns what a fault of serving is called on standard error.
fn serve_fault_name(fault: ListenFault) -> &'static str
    ensures { result.now ≡ serve_fault_text fault }
{
    match fault {
        ListenFault::Listen => LISTEN,
        ListenFault::Write => "write",
        ListenFault::NoMemory => "no memory",
    }
}

/// Returns what a fault of lines that are asked of a server is called on standard error.
fn relay_fault_name(fault: RelayFault) -> &'static str
    ensures { result.now ≡ relay_fault_text fault }
{
    match fault {
        RelayFault::Run(fault) => fault_name(fault),
        RelayFault::NoReply => "no reply",
    }
}

/// Returns what a fault of a server with its controllers is called on standard error.
fn all_fault_name(fault: AllFault) -> &'static str
    ensures { result.now ≡ all_fault_text fault }
{
    match fault {
        AllFault::Serve(fault) => serve_fault_name(fault),
        AllFault::Relay(fault) => relay_fault_name(fault),
    }
}

/// Serves, and returns what a fault of that is called.
fn serve_to<R, W>(
    rt: &R,
    alloc: Global,
    options: ServeOptions,
    writer: io::Result<W>,
) -> Result<(), &'static str>
where
    R: Net<Listener = TcpListener, Stream = TcpStream> + Threads + Wait + Clock + Sync,
    W: Write + Drop,
{
    match writer {
        Ok(mut writer) => serve(rt, alloc, options, &mut writer).map_err(serve_fault_name),
        Err(_) => Err(fault_name(RunFault::Want)),
    }
}

/// Says that a server with its controllers has ended with its input, of which there was none, if it can be said.
fn tell_no_input<E: Write>(told: &mut E) {
    let _ = told.write_all(NO_INPUT);
}

/// Serves with the controllers at work, answers lines, and returns what a fault of that is called.
fn all_over<R, I, W, E>(
    rt: &R,
    alloc: Global,
    options: AllOptions,
    lines: Result<(I, W), RunFault>,
    mut told: E,
) -> Result<(), &'static str>
where
    R: Net<Listener = TcpListener, Stream = TcpStream> + Eprint + Threads + Wait + Clock + Sync,
    I: BufRead + Drop,
    W: Write + Drop,
    E: Write + Drop,
{
    match lines {
        Ok((mut reader, mut writer)) => {
            match all(rt, alloc, options, &mut reader, &mut writer, &mut told) {
                Ok(true) => Ok(()),
                Ok(false) => {
                    tell_no_input(&mut told);
                    Ok(())
                }
                Err(fault) => Err(all_fault_name(fault)),
            }
        }
        Err(fault) => Err(fault_name(fault)),
    }
}

/// Returns the port that a command listens on, if it is one that was chosen.
fn port_of(command: Subcommand) -> Option<u16> {
    match command {
        Subcommand::Serve(ServeOptions { port, .. }) | Subcommand::All(AllOptions { port, .. }) => {
            Some(port)
        }
        Subcommand::Replay | Subcommand::Simulate | Subcommand::Control(_) => None,
    }
}

/// Says why a port cannot be listened on, if it still cannot: the system is asked once more.
fn tell_cause(rt: &HostRuntime, port: u16) -> io::Result<()> {
    match TcpListener::bind(rt, (Ipv4Addr::LOCALHOST, port)) {
        Ok(_) => Ok(()),
        Err(error) => eprintln!(rt; "kcp: port {port} of 127.0.0.1: {error}"),
    }
}

/// Says which fault ended a command, and of a port that cannot be listened on the cause.
fn tell_fault(rt: &HostRuntime, command: Subcommand, name: &str) -> io::Result<ExitCode> {
    eprintln!(rt; "kcp: {name}")?;
    match port_of(command) {
        Some(port) if name == LISTEN => tell_cause(rt, port)?,
        _ => {}
    }
    Ok(ExitCode::from(1))
}

/// Says that there was no memory for the words after the program's name, or that one of them is no text.
fn refuse_unread(rt: &HostRuntime, error: &io::Error) -> io::Result<ExitCode> {
    if error.kind() == ErrorKind::OutOfMemory {
        eprintln!(rt; "kcp: {}", fault_name(RunFault::Want))?;
        return Ok(ExitCode::from(1));
    }
    print!(rt; "{}", Usage::Program.text())?;
    refuse(rt)
}

fn main(rt: HostRuntime) -> io::Result<ExitCode> {
    let words = match words_of(&rt) {
        Ok(words) => words,
        Err(error) => return refuse_unread(&rt, &error),
    };
    let Some(command) = Subcommand::parse(&words) else {
        tell_usage(&rt, &words)?;
        return refuse(&rt);
    };
    let outcome = match command {
        Subcommand::Replay => replay_standard_input(&rt).map_err(fault_name),
        Subcommand::Simulate => simulate_standard_input(&rt).map_err(fault_name),
        Subcommand::Serve(options) => {
            let writer = BufWriter::new(rt.alloc(), io::writer(&rt));
            serve_to(&rt, rt.alloc(), options, writer)
        }
        Subcommand::Control(options) => {
            control(&rt, rt.alloc(), options).map_err(|_| fault_name(RunFault::Want))
        }
        Subcommand::All(options) => {
            all_over(&rt, rt.alloc(), options, standard_lines(&rt), rt.stderr())
        }
    };
    match outcome {
        Ok(()) => Ok(ExitCode::SUCCESS),
        Err(name) => tell_fault(&rt, command, name),
    }
}
