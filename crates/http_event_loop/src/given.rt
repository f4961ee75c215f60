//! A connection that a loop is given.
ghost use Rattle.http_event_loop.specs.Begun.{MayHaveBegun};

use crate::begun::Begun;
use mio::net::TcpStream;
use std::time::Instant;

/// A connection that a loop is given, of which nothing was asked.
#[derive(Drop)]
pub(crate) struct Given {
    pub(crate) stream: TcpStream,
    /// How far it has come.
    pub(crate) begun: Begun,
    /// When the peer connected.
    pub(crate) since: Instant,
    ghost led: { MayHaveBegun begun },
}

impl Given {
    /// Returns a connection that was accepted now.
    pub(crate) fn accepted(stream: TcpStream, now: Instant) -> Given {
        Given {
            stream,
            begun: Begun::Unread,
            since: now,
        }
    }

    /// Returns whether the connection is to ask for a list.
    pub(crate) fn is_list(&self) -> bool {
        matches!(self.begun, Begun::List { .. })
    }
}
