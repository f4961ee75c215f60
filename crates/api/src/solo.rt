//! The owner of a server.
use crate::alone;
use crate::site::Site;
use http_watch::{Begun, WatchSource};
use metadata_values::moments::Moment;
use object_keys::Fault;
use reply::Reply;
use request_parts::Request;
use request_parts::list_options::ListOptions;
use revisions::WatchedEvents;
use selector::View;
use server::{ListText, Server};
use std::alloc::Global;
use std::marker::Model;

/// A server that nobody else uses.
#[derive(Drop)]
pub struct Solo {
    server: Server,
}

impl Model for Solo {
    ghost use Rattle.spec_server.specs.Servers as servers;
    ghost use Rattle.spec_server.specs.Codes.{coded_server};

    ghost Value = { servers.Server };

    ghost coded = { coded_server };

    ghost view = { λ s. s.server };
}

impl Solo {
    ghost use Rattle.std.specs.Prelude.{◌≡◌};

    /// Returns the owner of a server.
    pub fn new(server: Server) -> Solo
        ensures { result ≡ server }
    {
        Solo { server }
    }
}

impl WatchSource for Solo {
    ghost use Rattle.api.specs.Alone.{WatchesAlone, BeginsAlone};

    ghost Watches = { WatchesAlone };

    ghost Begins = { BeginsAlone };

    fn watch_from(
        &mut self,
        alloc: Global,
        view: &View,
        after: u64,
        most: usize,
    ) -> Result<WatchedEvents, Fault> {
        match alone::watch_from(alloc, &self.server, view, after, most) {
            Ok(watched) => Ok(watched),
            Err(fault) => Err(fault),
        }
    }

    fn initial(&mut self, alloc: Global, view: &View, least: Option<u64>) -> Result<Begun, Fault> {
        match alone::initial(alloc, &self.server, view, least) {
            Ok(begun) => Ok(begun),
            Err(fault) => Err(fault),
        }
    }
}

impl Site for Solo {
    ghost use Rattle.api.specs.Alone.{CallsAlone, ListsAlone};

    ghost Calls = { CallsAlone };

    ghost MayAsk = { λ q. Unit {0} };

    ghost Lists = { ListsAlone };

    fn call(&mut self, alloc: Global, request: Request, moment: Moment) -> Result<Reply, Fault> {
        match alone::call(alloc, &mut self.server, request, moment) {
            Ok(reply) => Ok(reply),
            Err(fault) => Err(fault),
        }
    }

    fn list(&mut self, alloc: Global, view: &View, options: &ListOptions) -> Result<Reply, Fault> {
        match alone::list(alloc, &self.server, view, options) {
            Ok(reply) => Ok(reply),
            Err(fault) => Err(fault),
        }
    }

    fn page(
        &mut self,
        alloc: Global,
        view: &View,
        options: &ListOptions,
    ) -> Result<ListText, Fault> {
        match alone::page(alloc, &self.server, view, options) {
            Ok(text) => Ok(text),
            Err(fault) => Err(fault),
        }
    }

    ghost readable = { λ q can. tt };
}
