//! Where a connection stands.
ghost use Rattle.std.specs.Prelude.{◌≡◌};
ghost use Rattle.http_connection.specs.Questions.{is_behind, is_over, is_paused, is_reading, is_unwritten, watched_kind};

use crate::arriving::Arriving;
use crate::listing::Listing;
use crate::replying::Replying;
use crate::watching::Watching;
use api::Served;
use request_decoding::Asked;
use spec_api::kinds::Kind;

/// Where a connection stands.
#[derive(Drop)]
pub enum ConnectionPhase {
    /// Its request is being read.
    Reading(Arriving),
    /// Its request is whole, and is to be answered.
    Asked(Asked),
    /// Its request is being answered.
    Answering,
    /// Its reply is being written.
    Replying(Replying),
    /// Its list is being written.
    Listing(Listing),
    /// Its watch is being written.
    Watching(Watching),
    /// It is to be closed. The peer may still be sending, but where a whole request was read.
    Closing(Served),
}

impl ConnectionPhase {
    /// Returns whether the request is still being read, as long as which a peer has until the deadline of requests.
    pub fn is_reading(&self) -> bool
        ensures { result ≡ is_reading self.now }
    {
        matches!(self, ConnectionPhase::Reading(_))
    }

    /// Returns whether bytes are to be written, or a reply of which there was no memory to make them.
    pub fn is_unwritten(&self) -> bool
        ensures { result ≡ is_unwritten self.now }
    {
        match self {
            ConnectionPhase::Replying(_) | ConnectionPhase::Listing(_) => true,
            ConnectionPhase::Watching(watching) => watching.has_more(),
            _ => false,
        }
    }

    /// Returns the kind whose changes a watch is to be looked at for, as long as it is not over.
    pub fn watched_kind(&self) -> Option<Kind>
        ensures { result ≡ watched_kind self.now }
    {
        match self {
            ConnectionPhase::Watching(watching) => match watching.at {
                Some(_) => Some(watching.view.kind),
                None => None,
            },
            _ => None,
        }
    }

    /// Returns whether a watch is to be looked at once more before it waits for a change: its last look gave lines, after which there may
    /// be more.
    pub fn is_behind(&self) -> bool
        ensures { result ≡ is_behind self.now }
    {
        match self {
            ConnectionPhase::Watching(watching) => match watching.at {
                Some(at) => at.idle == 0,
                None => false,
            },
            _ => false,
        }
    }

    /// Returns whether writing stopped so that others go on meanwhile: the peer may take more at once.
    pub fn is_paused(&self) -> bool
        ensures { result ≡ is_paused self.now }
    {
        match self {
            ConnectionPhase::Listing(listing) => listing.is_paused,
            ConnectionPhase::Watching(watching) => watching.is_paused,
            _ => false,
        }
    }

    /// Returns whether the connection is to be closed.
    pub fn is_over(&self) -> bool
        ensures { result ≡ is_over self.now }
    {
        matches!(self, ConnectionPhase::Closing(_))
    }
}
