//! How far a connection has come that a loop is given.
ghost use Rattle.http_connection.specs.Arriving.{MayStand};

use http_connection::{Arriving, ConnectionPhase};
use request_decoding::Asked;
use request_parts::list_options::ListOptions;
use request_parts::watch_options::WatchOptions;
use selector::View;
use std::alloc::Global;

/// How far a connection has come that a loop is given, of which nothing was asked.
#[derive(Drop)]
pub(crate) enum Begun {
    /// Nothing of it was read.
    Unread,
    /// Its request is not whole.
    Reading(Arriving),
    /// It is to ask for a list.
    List { view: View, options: ListOptions },
    /// It is to ask for a watch.
    Watch { view: View, options: WatchOptions },
}

impl Begun {
    ghost use Rattle.http_event_loop.specs.Begun.{MayBeEither, MayHaveBegun};

    /// Returns where the connection stands.
    pub(crate) fn into_phase(self, alloc: Global) -> ConnectionPhase
        requires begun { MayHaveBegun self }
        ensures led { MayStand result }
    {
        match self {
            Begun::Unread => ConnectionPhase::Reading(Arriving::new(alloc)),
            Begun::Reading(arriving) => ConnectionPhase::Reading(arriving),
            Begun::List { view, options } => ConnectionPhase::Asked(Asked::List { view, options }),
            Begun::Watch { view, options } => {
                ConnectionPhase::Asked(Asked::Watch { view, options })
            }
        }
    }

    /// Returns how far a connection has come that stands here, if it is for another loop: its request is not whole, or asks for a list or a watch,
    /// which may take long. Else hands it back.
    pub(crate) fn of_phase(phase: ConnectionPhase) -> Result<Begun, ConnectionPhase>
        requires led { MayStand phase }
        ensures begun { MayBeEither result }
    {
        match phase {
            ConnectionPhase::Reading(arriving) => Ok(Begun::Reading(arriving)),
            ConnectionPhase::Asked(Asked::List { view, options }) => {
                Ok(Begun::List { view, options })
            }
            ConnectionPhase::Asked(Asked::Watch { view, options }) => {
                Ok(Begun::Watch { view, options })
            }
            phase => Err(phase),
        }
    }
}
