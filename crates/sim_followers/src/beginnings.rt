//! How what follows a kind begins.
ghost use Rattle.std.specs.Prelude.{◌≡◌, IfOk};
ghost use Rattle.spec_client_go.specs.Reflectors.{begun_by};
ghost use Rattle.spec_api.specs.History.{viewed};
ghost use Rattle.selector.specs.Views.{view_of};
ghost use Rattle.spec_sim.specs.Followers.{asks_streams, streaming_at};

use crate::links::Link;
use meta::Kind;
use reflector::Reflector;
use selector::View;
use server::Server;
use spec_sim::initial_syncs::InitialSync;
use std::alloc::{AllocError, Global};

/// Returns a reflector of a kind that has seen nothing yet, and begins so.
pub(crate) fn begun(alloc: Global, kind: Kind, initial: InitialSync) -> Reflector
    ensures { result ≡ begun_by (asks_streams initial) kind }
{
    match initial {
        InitialSync::List => Reflector::new(alloc, kind),
        InitialSync::Stream => Reflector::streaming(alloc, kind),
    }
}

/// Returns a link on which all that is there now of a view is to be written, and then the bookmark that closes it. The error is
/// running out of memory.
pub(crate) fn streaming(alloc: Global, server: &Server, view: &View) -> Result<Link, AllocError>
    ensures { IfOk result (λ l. l
        ≡ streaming_at server.now.snapshot.revision (viewed (view_of view.now) server.now.snapshot.members)) }
{
    // What is there is refused for memory alone.
    let Ok(initial) = server.initial(alloc, view, None) else {
        return Err(AllocError);
    };
    let events = initial.events(alloc)?;
    Ok(Link::streaming_at(alloc, events, initial.revision))
}
