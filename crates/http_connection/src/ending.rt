//! Watches that who holds them ends.
ghost use Rattle.http_connection.specs.Looking.{EndsFrom};
ghost use Rattle.http_connection.specs.Arriving.{MayStand};
ghost use Rattle.http_connection.specs.Phases.{StandsOn};
ghost use Rattle.http_connection.specs.declared.phase.ConnectionPhase.TheVariants as phase;

use crate::looking::with_end;
use crate::phase::ConnectionPhase;
use crate::watching::Watching;
use api::Site;
use std::alloc::Global;

/// Ends a watch, as who holds it does at a stop, and returns where its connection then stands: after the frames of its looks its end is to
/// be written, and it looks no more. A watch that is over stays so. It is left, unfinished, where there is no memory for its end, or no
/// room among what its peer leaves unwritten.
///
/// The server that answers is named by the type alone.
pub fn end_watch<S: Site>(alloc: Global, watching: Watching) -> ConnectionPhase
    ensures ends { EndsFrom watching watching.at result }
    ensures stands { StandsOn S.Calls S.Lists S.Begins S.Watches (phase.Watching watching) result }
    ensures led { MayStand result }
{
    match watching.at {
        Some(_) => with_end(watching, Vec::new(alloc)),
        None => ConnectionPhase::Watching(watching),
    }
}
