//! A session over a server: what a line is answered, what changes by it, and the change, which may be made later.
use crate::effects::{Effect, Prepared};
use crate::openings::stream_opening;
use line_service::lines::{
    change_lines, fault_line, initial_lines, line, refusal_line, success_line,
};
use line_service::{LineService, no_memory_line};
use meta::Write;
use metadata_values::moments::Moment;
use object_keys::Fault;
use reply::Reply;
use request_decoding::{Asked, read_request};
use request_parts::Request;
use request_parts::line::{Line, read_line};
use request_parts::list_options::ListOptions;
use request_parts::table::Routes;
use request_parts::watch_options::WatchOptions;
use revisions::WatchedEvents;
use revisions::watched::last_bookmark;
use selector::View;
use server::{InitialEvents, Server};
use spec_api::methods::Method;
use spec_api::refusals::Part;
use spec_api::versions::Start;
use std::alloc::{AllocError, Global};
use std::marker::Model;

/// A server and the moment that it is, over which lines are answered.
pub struct Session {
    server: Server,
    moment: Moment,
    routes: Routes,
}

impl Drop for Session {
    // Called where one is dropped; a derived drop is proved anew at each such place.
    fn drop(self) {
        let Session {
            server: _server,
            moment: _moment,
            routes: _routes,
        } = self;
    }
}

impl Model for Session {
    ghost use Rattle.line_session.specs.SessionStates.{SessionState, coded_state};

    ghost Value = { SessionState };

    ghost coded = { coded_state };

    ghost view = { λ s. record { server = s.server; moment = s.moment } };
}

impl Session {
    ghost use Rattle.std.specs.Prelude.{◌≡◌, IfOk, OnOk, OnErr, false};
    ghost use Rattle.spec_api.specs.History.{viewed};
    ghost use Rattle.server.specs.Initials.{initial_of};
    ghost use Rattle.verb_parts.specs.Serves as answers;
    ghost use Rattle.server.specs.Replies.{Lists};
    ghost use Rattle.revisions.specs.Watches.{watched_of};
    ghost use Rattle.watch_cache.specs.Served.{Serves};
    ghost use Rattle.spec_api.specs.Replies.{outcome, watch_reply};
    ghost use Rattle.spec_line_protocol.specs.Lines.{reply_text};
    ghost use Rattle.spec_server.specs.Servers.{list_served, after_write, compact_by, initial_by, watch_by, watch_served};
    ghost use Rattle.spec_api.specs.Targets as targets;
    ghost use Rattle.spec_api.specs.Verbs as outcomes;
    ghost use Rattle.spec_api.specs.Verbs.{overflows};
    ghost use Rattle.meta.specs.Writes.{write_of};
    ghost use Rattle.request_parts.specs.Collected.{list_seen, watch_seen};
    ghost use Rattle.selector.specs.Views.{view_of};
    ghost use Rattle.spec_line_protocol.specs.Lines.{line_of};
    ghost use Rattle.line_session.specs.Effects.{effect_of};
    ghost use Rattle.line_session.specs.SessionStates.{begun, accepted, reply_for, reply_to, state_after, compact_text, of_write, written_by, of_compaction, effect_on, changed_by, HasRoom};
    ghost use Rattle.request_parts.specs.Requests.{request_of};

    /// Returns a session over a server where nothing is there, at the start of 2026, that keeps the last `window` changes of
    /// each kind. The error is running out of memory.
    pub fn new(alloc: Global, window: usize) -> Result<Session, AllocError>
        ensures { IfOk result (λ s. s ≡ begun window) }
    {
        Ok(Session {
            server: Server::new(alloc, window)?,
            moment: Moment::start(),
            routes: Routes::new(alloc)?,
        })
    }

    /// Returns the reply to a request at the session's moment with what it writes, or why it is refused. Nothing is written yet.
    pub fn answer(&self, alloc: Global, request: Request) -> Result<(Reply, Option<Write>), Fault>
        ensures { answers.Serves (accepted self.now (request_of request)) result }
    {
        self.server.answer(alloc, request, self.moment)
    }

    /// Returns the reply line to a request, and what it writes. The error is running out of memory.
    fn prepare_request(&self, alloc: Global, request: Request) -> Result<Prepared, AllocError>
        ensures reply { IfOk result (λ p. p.reply.items ≡ reply_text (outcome (accepted self.now (request_of request)))) }
        ensures effect { IfOk result (λ p. effect_of p.effect ≡ of_write (outcomes.write_of (accepted self.now (request_of request)))) }
    {
        match self.answer(alloc, request) {
            Ok((reply, write)) => Ok(Prepared {
                reply: line(alloc, reply.code, reply.text.as_str())?,
                effect: Effect::of_write(write),
            }),
            Err(Fault::NoMemory) => Err(AllocError),
            Err(fault) => Ok(Prepared::unchanged(refusal_line(alloc, &fault)?)),
        }
    }

    /// Returns the reply to a list, or why it is refused.
    fn listed(&self, alloc: Global, view: &View, options: &ListOptions) -> Result<Reply, Fault>
        ensures { Lists (list_served self.now.server (view_of view.now) (list_seen options.now)) result }
    {
        let after = options.after.as_ref();
        self.server
            .list(alloc, view, options.at, options.limit, after)
    }

    /// Returns the reply line to a list.
    fn list(&self, alloc: Global, view: &View, options: &ListOptions) -> Result<Vec<u8>, AllocError>
        ensures { IfOk result (λ l. l.items
            ≡ reply_text (outcome (list_served self.now.server (view_of view.now) (list_seen options.now)))) }
    {
        match self.listed(alloc, view, options) {
            Ok(reply) => line(alloc, reply.code, reply.text.as_str()),
            Err(fault) => fault_line(alloc, &fault),
        }
    }

    /// Returns all changes of a view after a revision: there are fewer than the present revision.
    fn watched(&self, alloc: Global, view: &View, from: u64) -> Result<WatchedEvents, Fault>
        ensures { Serves watched_of (watch_by self.now.server (view_of view.now) from self.now.server.snapshot.revision) result }
    {
        let most = self.server.revision() as usize;
        self.server.watch_from(alloc, view, from, most)
    }

    /// Returns what is there of a view, not older than the revision that is named, if one is.
    fn initial(
        &self,
        alloc: Global,
        view: &View,
        least: Option<u64>,
    ) -> Result<InitialEvents, Fault>
        ensures events { Serves initial_of (initial_by self.now.server (view_of view.now) least) result }
        ensures members { IfOk result (λ i. i.objects ≡ viewed (view_of view.now) self.now.server.snapshot.members) }
        ensures revision { IfOk result (λ i. i.revision ≡ self.now.server.snapshot.revision) }
    {
        self.server.initial(alloc, view, least)
    }

    /// Returns the lines of a watch from a revision: the changes after it.
    fn show_changes(
        &self,
        alloc: Global,
        view: &View,
        bookmarks: bool,
        from: u64,
    ) -> Result<Vec<u8>, AllocError>
        ensures { IfOk result (λ l. l.items ≡ reply_text (watch_reply view.now.kind
            (watch_served self.now.server (view_of view.now) (record { start = Start.After from; bookmarks = bookmarks })))) }
    {
        match self.watched(alloc, view, from) {
            Ok(watched) => {
                let bookmark = last_bookmark(bookmarks, from, &watched);
                change_lines(alloc, view.kind, &watched.events, bookmark)
            }
            Err(fault) => fault_line(alloc, &fault),
        }
    }

    /// Returns the lines of a watch that begins with initial events, not older than the revision that is named, if one is.
    fn show_initial(
        &self,
        alloc: Global,
        view: &View,
        bookmarks: bool,
        least: Option<u64>,
    ) -> Result<Vec<u8>, AllocError>
        ensures { IfOk result (λ l. l.items ≡ reply_text (watch_reply view.now.kind
            (watch_served self.now.server (view_of view.now) (record { start = Start.Streamed least; bookmarks = bookmarks })))) }
    {
        match self.initial(alloc, view, least) {
            Ok(initial) => stream_opening(alloc, view.kind, bookmarks, &initial),
            Err(fault) => fault_line(alloc, &fault),
        }
    }

    /// Returns the lines of a watch: what is there, or the changes after a revision.
    fn show(&self, alloc: Global, view: &View, options: WatchOptions) -> Result<Vec<u8>, AllocError>
        ensures { IfOk result (λ l. l.items
            ≡ reply_text (watch_reply view.now.kind (watch_served self.now.server (view_of view.now) (watch_seen options)))) }
    {
        let bookmarks = options.bookmarks;
        match options.start {
            Start::After(revision) => self.show_changes(alloc, view, bookmarks, revision),
            Start::Listed => {
                let members = self.server.added(alloc, view)?;
                initial_lines(alloc, view.kind, &members)
            }
            Start::Streamed(least) => self.show_initial(alloc, view, bookmarks, least),
            Start::Present => {
                let present = self.server.revision();
                self.show_changes(alloc, view, bookmarks, present)
            }
        }
    }

    /// Returns the reply line to what is asked, and what it writes. The error is running out of memory.
    fn prepare_asked(
        &self,
        alloc: Global,
        method: Method,
        target: &[u8],
        body: &[u8],
    ) -> Result<Prepared, AllocError>
        ensures reply { IfOk result (λ p. p.reply.items
            ≡ reply_text (reply_for self.now (targets.read_request method target.now body.now))) }
        ensures effect { IfOk result (λ p. effect_of p.effect
            ≡ of_write (written_by (reply_for self.now (targets.read_request method target.now body.now)))) }
    {
        match read_request(alloc, &self.routes, method, target, body) {
            Ok(Asked::Request(request)) => self.prepare_request(alloc, request),
            Ok(Asked::List { view, options }) => {
                Ok(Prepared::unchanged(self.list(alloc, &view, &options)?))
            }
            Ok(Asked::Watch { view, options }) => {
                Ok(Prepared::unchanged(self.show(alloc, &view, options)?))
            }
            Err(Fault::NoMemory) => Err(AllocError),
            Err(fault) => Ok(Prepared::unchanged(refusal_line(alloc, &fault)?)),
        }
    }

    /// Returns the reply line to a compaction, which is refused above the present revision, and what changes by it. Nothing changes yet,
    /// as with `prepare`. The error is running out of memory.
    pub fn prepare_compaction(&self, alloc: Global, revision: u64) -> Result<Prepared, AllocError>
        ensures reply { IfOk result (λ p. p.reply.items ≡ compact_text (compact_by self.now.server revision)) }
        ensures effect { IfOk result (λ p. effect_of p.effect ≡ of_compaction revision (compact_by self.now.server revision)) }
    {
        let present = self.server.revision();
        if present < revision {
            let fault = Fault::TooNew {
                asked: revision,
                present,
            };
            return Ok(Prepared::unchanged(refusal_line(alloc, &fault)?));
        }
        Ok(Prepared {
            reply: success_line(alloc)?,
            effect: Effect::Compaction(revision),
        })
    }

    /// Returns the reply to a line, which is not skipped where it is empty, and what changes by it. Nothing changes yet: whoever
    /// has to make something of the effect first, commits it with `commit` then. The error is running out of memory.
    pub fn prepare(&self, alloc: Global, text: &[u8]) -> Result<Prepared, AllocError>
        ensures reply { IfOk result (λ p. p.reply.items ≡ reply_to self.now (line_of text.now)) }
        ensures effect { IfOk result (λ p. effect_of p.effect ≡ effect_on self.now (line_of text.now)) }
    {
        match read_line(text) {
            Line::Ask {
                method,
                target,
                body,
            } => self.prepare_asked(alloc, method, target, body),
            Line::At(moment) => Ok(Prepared {
                reply: Vec::new(alloc),
                effect: Effect::Moment(moment),
            }),
            Line::Compact(revision) => self.prepare_compaction(alloc, revision),
            Line::Unreadable => {
                let reply = refusal_line(alloc, &Fault::BadRequest(Part::Head))?;
                Ok(Prepared::unchanged(reply))
            }
        }
    }

    /// Makes a write for which there is room. An error, running out of memory, changes nothing.
    fn write(&mut self, write: Write) -> Result<(), AllocError>
        requires { overflows self.old.server.snapshot.members self.old.server.snapshot.revision (write_of write) ≡ false }
        ensures server { OnOk result (self.new.server ≡ after_write self.old.server (write_of write)) }
        ensures moment { self.new.moment ≡ self.old.moment }
        ensures err { OnErr result (self.new ≡ self.old) }
    {
        match self.server.take(write) {
            Ok(()) => Ok(()),
            Err(_) => Err(AllocError),
        }
    }

    /// Changes what a line changes, for which there is room, as there is for what `prepare` returns. An error, running out of
    /// memory, changes nothing.
    pub fn commit(&mut self, effect: Effect) -> Result<(), AllocError>
        requires { HasRoom self.old (effect_of effect) }
        ensures ok { OnOk result (self.new ≡ changed_by self.old (effect_of effect)) }
        ensures err { OnErr result (self.new ≡ self.old) }
    {
        match effect {
            Effect::Nothing => Ok(()),
            Effect::Write(write) => self.write(write),
            Effect::Moment(moment) => {
                self.moment = moment;
                Ok(())
            }
            Effect::Compaction(revision) => {
                // One above the present revision is refused, and changes nothing.
                drop(self.server.compact(revision));
                Ok(())
            }
        }
    }

    /// Returns the reply to a line, which is not skipped where it is empty, after which what it writes is written. An error,
    /// running out of memory, changes nothing.
    pub fn serve_text(&mut self, alloc: Global, text: &[u8]) -> Result<Vec<u8>, AllocError>
        ensures text { IfOk result (λ l. l.items ≡ reply_to self.old (line_of text.now)) }
        ensures state { OnOk result (self.new ≡ state_after self.old (line_of text.now)) }
        ensures err { OnErr result (self.new ≡ self.old) }
    {
        let Prepared { reply, effect } = self.prepare(alloc, text)?;
        self.commit(effect)?;
        Ok(reply)
    }

    /// Returns the server.
    pub fn server(&self) -> &Server
        ensures { result.now ≡ self.now.server }
    {
        &self.server
    }
}

impl LineService for Session {
    ghost use Rattle.line_session.specs.Refusals.{refusal};
    ghost use Rattle.line_session.specs.SessionStates.{reply_by_state, next_state};

    ghost reply = { reply_by_state };

    ghost next = { next_state };

    ghost refusal = { refusal };

    fn serve(&mut self, alloc: Global, line: &[u8]) -> Result<Vec<u8>, AllocError> {
        if line.is_empty() {
            return Ok(Vec::new(alloc));
        }
        self.serve_text(alloc, line)
    }

    fn refused(&self, line: &[u8]) -> Option<&'static [u8]> {
        if !line.is_empty() {
            match read_line(line) {
                Line::At(_) => None,
                Line::Ask { .. } | Line::Compact(_) | Line::Unreadable => Some(no_memory_line()),
            }
        } else {
            None
        }
    }
}
