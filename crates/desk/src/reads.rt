//! What is read at a desk.
ghost use Rattle.std.specs.Prelude.{None};
ghost use Rattle.spec_api.specs.Lists.{list_outcome};
ghost use Rattle.spec_api.specs.Versions.{watched_from};
ghost use Rattle.server.specs.Replies.{Finds, Lists};
ghost use Rattle.request_parts.specs.Collected.{list_seen};
ghost use Rattle.revisions.specs.Watches.{watched_of};
ghost use Rattle.selector.specs.Views.{view_of};
ghost use Rattle.watch_cache.specs.Served.{Serves};
ghost use Rattle.http_watch.specs.Given.{GivesBegun};
ghost use Rattle.desk.specs.Desks.{known, window_size, IsPassAt};
ghost use Rattle.desk.specs.Steps.{Step};
ghost use Rattle.desk.specs.Told.{IsThere};

use crate::askings::Asking;
use crate::desks::{Desk, StorePass};
use crate::steps;
use api::alone;
use http_watch::Begun;
use object_keys::Fault;
use reply::Reply;
use request_parts::list_options::ListOptions;
use revisions::WatchedEvents;
use selector::View;
use server::{ListText, opened};
use std::alloc::Global;
use std::sync::Wait;

impl<A: Asking> Desk<A> {
    /// Returns the page of the list of a view that the options ask for. The pass has then seen all that had happened. The
    /// errors are a revision below the floor, one above the present, and out of memory.
    pub fn list<R: Wait>(
        &self,
        rt: &R,
        alloc: Global,
        pass: &mut StorePass,
        view: &View,
        options: &ListOptions,
    ) -> Result<Reply, Fault>
        requires { IsPassAt self.now pass.old }
        ensures pass { IsPassAt self.now pass.new }
        ensures list { Step A.MayAsk (known pass.old) (λ h. None)
            (λ h. Lists (list_outcome (window_size self.now) h (view_of view.now) (list_seen options.now)) result) (known pass.new) }
    {
        let held = self.take(rt, pass);
        let reply = steps::list(alloc, held.get(), view, options);
        self.give_back(rt, pass, held);
        reply
    }

    /// Returns the text of the page of the list of a view that the options ask for, which is still to be made: the server is taken while the
    /// page is found, and given back before anything of its text is looked at. The pass has then seen all that had happened. The errors are a
    /// revision below the floor, one above the present, and out of memory.
    pub fn page<R: Wait>(
        &self,
        rt: &R,
        alloc: Global,
        pass: &mut StorePass,
        view: &View,
        options: &ListOptions,
    ) -> Result<ListText, Fault>
        requires { IsPassAt self.now pass.old }
        ensures pass { IsPassAt self.now pass.new }
        ensures page { Step A.MayAsk (known pass.old) (λ h. None)
            (λ h. Finds (list_outcome (window_size self.now) h (view_of view.now) (list_seen options.now)) result) (known pass.new) }
    {
        let held = self.take(rt, pass);
        let page = steps::page(alloc, held.get(), view, options);
        self.give_back(rt, pass, held);
        opened(alloc, page)
    }

    /// Returns the first changes of a view after a revision, at most `max`, and where the watch then stands. The pass has then
    /// seen all that had happened. The errors are a revision below the floor, one above the present, and out of memory.
    pub fn watch_from<R: Wait>(
        &self,
        rt: &R,
        alloc: Global,
        pass: &mut StorePass,
        view: &View,
        after: u64,
        max: usize,
    ) -> Result<WatchedEvents, Fault>
        requires { IsPassAt self.now pass.old }
        ensures pass { IsPassAt self.now pass.new }
        ensures watch { Step A.MayAsk (known pass.old) (λ h. None)
            (λ h. Serves watched_of (watched_from (window_size self.now) h (view_of view.now) after max) result) (known pass.new) }
    {
        let held = self.take(rt, pass);
        let watched = held.get().watch_from(alloc, view, after, max);
        self.give_back(rt, pass, held);
        watched
    }

    /// Returns what is there of a view as a watch begins with it, not older than a revision, if one is named. The pass has then
    /// seen all that had happened. The errors are a revision above the present one and out of memory.
    pub fn initial<R: Wait>(
        &self,
        rt: &R,
        alloc: Global,
        pass: &mut StorePass,
        view: &View,
        least: Option<u64>,
    ) -> Result<Begun, Fault>
        requires { IsPassAt self.now pass.old }
        ensures pass { IsPassAt self.now pass.new }
        ensures initial { Step A.MayAsk (known pass.old) (λ h. None)
            (λ h. GivesBegun (IsThere h (view_of view.now) least) result) (known pass.new) }
    {
        let held = self.take(rt, pass);
        let begun = alone::initial(alloc, held.get(), view, least);
        self.give_back(rt, pass, held);
        begun
    }
}
