//! Connections over memory that go on in steps.
ghost use Rattle.http_connection.specs.Arriving.{MayStand};

use api::Solo;
use http_connection::{Arriving, ConnectionPhase, Noted, answer, look_on, turn};
use metadata_values::moments::Moment;
use request_parts::table::Routes;
use std::alloc::Global;
use std::io::ErrorKind;
use test_fixtures::{Source, TestSink};

/// Returns a writer that takes nothing more where it fails.
pub fn sink(alloc: Global) -> TestSink {
    TestSink {
        written: Vec::new(alloc),
        bad: u64::MAX,
        kind: ErrorKind::WouldBlock,
        calls: 0,
    }
}

/// Lets a connection read and write in turn, as far as that goes.
fn turned(
    alloc: Global,
    routes: &Routes,
    phase: ConnectionPhase,
    source: &mut Source<'_>,
    sink: &mut TestSink,
) -> ConnectionPhase
    ensures { MayStand phase → MayStand result }
{
    let mut reader = Noted::new(source);
    let mut writer = Noted::new(sink);
    turn::<Solo, _, _>(alloc, routes, phase, &mut reader, &mut writer)
}

/// Lets a text come, at most so many bytes a step, and returns where its connection then stands, answered if its request is whole.
pub fn asked(
    alloc: Global,
    routes: &Routes,
    site: &mut Solo,
    text: &[u8],
    most: usize,
    sink: &mut TestSink,
) -> ConnectionPhase {
    let mut source = Source::new(text, most);
    source.kind = ErrorKind::WouldBlock;
    let mut phase = ConnectionPhase::Reading(Arriving::new(alloc));
    for _ in 0..text.len() {
        source.bad = source.calls.saturating_add(1);
        phase = turned(alloc, routes, phase, &mut source, sink);
    }
    match phase {
        ConnectionPhase::Asked(asked) => answer(alloc, asked, site, Moment::start()),
        other => other,
    }
}

/// Lets a connection be written, so many calls of its writer a step, as far as there is something to write.
pub fn written(
    alloc: Global,
    routes: &Routes,
    phase: ConnectionPhase,
    calls: u64,
    sink: &mut TestSink,
) -> ConnectionPhase {
    let mut source = Source::new(b"", 1);
    let mut phase = phase;
    for _ in 0..4096 {
        if !phase.is_unwritten() {
            return phase;
        }
        sink.bad = sink.calls.saturating_add(calls);
        phase = turned(alloc, routes, phase, &mut source, sink);
    }
    phase
}

/// Takes a look, if the connection is one of a watch.
pub fn looked(alloc: Global, phase: ConnectionPhase, site: &mut Solo) -> ConnectionPhase {
    match phase {
        ConnectionPhase::Watching(watching) => look_on(alloc, watching, site),
        other => other,
    }
}

/// Lets a connection go, and returns whether it is over. No other function lets one go: what that takes is proved where it stands.
pub fn close(phase: ConnectionPhase) -> bool {
    phase.is_over()
}
