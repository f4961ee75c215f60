//! Simulations of all lines that are read.
ghost use Rattle.std.specs.Prelude.{◌≡◌, OnOk, IfErr, IfSome, true};
ghost use Rattle.chunked.specs.Devices.{device_of, has_failed};
ghost use Rattle.sim_service.specs.Laws.{AnswersAll, AnswersSome};

use crate::simulations::Simulation;
use chunked::Watched;
use line_service::{RunFault, run};
use std::alloc::Global;
use std::io::{BufRead, Write};

/// Takes the step that each line asks for, one after another, and writes what is told of each and nothing else. Each outcome is flushed
/// before the next line is waited for.
///
/// A request for which there is no memory is answered 503, by a line that takes none, and changes nothing. Where there is none for any other
/// step, the run ends.
///
/// At an error no step after the one at which the error came is taken, and the outcomes of those before it were written whole. That the reader
/// or the writer failed is the error only where its flag is up.
pub fn simulate<R: BufRead + Drop, W: Write + Drop>(
    alloc: Global,
    reader: &mut Watched<R>,
    writer: &mut Watched<W>,
) -> Result<(), RunFault>
    ensures ok { OnOk result (IfSome (R.remaining (device_of reader.old)) (AnswersAll (W.contents (device_of writer.old)) (W.contents (device_of writer.new)))) }
    ensures ended { IfErr result (λ fault. IfSome (R.remaining (device_of reader.old)) (AnswersSome fault (W.contents (device_of writer.old)) (W.contents (device_of writer.new)))) }
    ensures reader { IfErr result (λ fault. fault ≡ RunFault.Read → has_failed reader.new ≡ true) }
    ensures writer { IfErr result (λ fault. fault ≡ RunFault.Write → has_failed writer.new ≡ true) }
{
    let mut simulation = Simulation::new();
    run(alloc, &mut simulation, reader, writer)
}
