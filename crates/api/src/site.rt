//! What a connection asks of a server.
ghost use Rattle.std.specs.Prelude.{ℕ, List};
ghost use Rattle.spec_api.specs.ListQueries as collections;
ghost use Rattle.spec_api.specs.History as history;
ghost use Rattle.spec_api.specs.ObjectRequests as requests;
ghost use Rattle.spec_api.specs.Reached.{CanBeRead};
ghost use Rattle.spec_api.specs.Verbs.{Outcome};
ghost use Rattle.request_parts.specs.Collected.{list_seen};
ghost use Rattle.selector.specs.Views.{view_of};
ghost use Rattle.api.specs.Told.{Tells, TellsText};
ghost use Rattle.request_parts.specs.Requests.{request_of};

use http_watch::WatchSource;
use metadata_values::moments::Moment;
use object_keys::Fault;
use reply::Reply;
use request_parts::Request;
use request_parts::list_options::ListOptions;
use selector::View;
use server::ListText;
use std::alloc::Global;

/// A server as a connection asks it. Others may write between two calls, so that what a call answers is a relation between what
/// the site has seen before it and after it. Out of memory is an outcome as each refusal is. Each request may be asked that can be read of bytes.
pub trait Site: WatchSource {
    /// A request at a moment has this outcome.
    ghost Calls: { Self → requests.Request → List ℕ → Outcome → Self → Type 0 };

    /// A request may be asked.
    ghost MayAsk: { requests.Request → Type 0 };

    /// A list of a view has this outcome.
    ghost Lists: { Self → history.View → collections.ListOptions → Outcome → Self → Type 0 };

    /// Answers a request at a moment, after which what it writes is written.
    fn call(&mut self, alloc: Global, request: Request, moment: Moment) -> Result<Reply, Fault>
        requires asked { MayAsk (request_of request) }
        ensures calls { Tells (λ o. Calls self.old (request_of request) moment o self.new) result };

    /// Answers a list of a view.
    fn list(&mut self, alloc: Global, view: &View, options: &ListOptions) -> Result<Reply, Fault>
        ensures lists { Tells (λ o. Lists self.old (view_of view.now) (list_seen options.now) o self.new) result };

    /// Answers a list of a view with its text, which is still to be made: as it is taken, with the site left to others.
    fn page(&mut self, alloc: Global, view: &View, options: &ListOptions) -> Result<ListText, Fault>
        ensures pages { TellsText (λ o. Lists self.old (view_of view.now) (list_seen options.now) o self.new) result };

    /// Each may that can be read of bytes.
    ghost readable: { (q : requests.Request) → CanBeRead q → MayAsk q };
}
