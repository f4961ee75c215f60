//! What is told of how it goes with a server.
ghost use Rattle.std.specs.Prelude.{◌≡◌};
ghost use Rattle.request_parts.specs.Requests.{request_of};
ghost use Rattle.api_notes.specs.News.{is_create, is_told};

use crate::news::{News, is_over};
use crate::notes::Notes;
use crate::trouble::Trouble;
use http_client::Answer;
use http_client::statuses::{CONFLICT, FIRST_REDIRECTION, NOT_FOUND};
use request_parts::Request;
use spec_api::kinds::Kind;
use wakeups::Stop;

/// Returns whether a request is to make an object.
fn is_create(request: &Request) -> bool
    ensures { result ≡ is_create (request_of request.now) }
{
    matches!(request, Request::Create(_, _, _))
}

/// Returns whether it is told that a request is answered with a status code: one that is none of success, but 409, and 404 where no object is to be
/// made.
fn is_told(request: &Request, code: u16) -> bool
    ensures { result ≡ is_told (request_of request.now) code }
{
    code >= FIRST_REDIRECTION && code != CONFLICT && (code != NOT_FOUND || is_create(request))
}

/// Tells how it goes with a server, where that is news, until a stop: from then on connections end because they are to.
#[derive(Drop)]
pub(crate) struct Teller<'a, N> {
    notes: &'a N,
    stop: &'a Stop,
    /// The kind whose objects were asked for last.
    kind: Option<Kind>,
    /// What was told last of that kind, and is not over.
    trouble: Option<Trouble>,
    /// The kind of a request of one object that was not answered, if that was told and none was answered since.
    unanswered: Option<Kind>,
}

impl<'a, N: Notes> Teller<'a, N> {
    /// Returns what has told of nothing yet.
    pub(crate) fn new(notes: &'a N, stop: &'a Stop) -> Teller<'a, N> {
        Teller {
            notes,
            stop,
            kind: None,
            trouble: None,
            unanswered: None,
        }
    }

    /// Tells what keeps the objects of the kind from coming, unless that was told last.
    fn tell(&mut self, trouble: Trouble) {
        if self.trouble == Some(trouble) || self.stop.is_stopped() {
            return;
        }
        if let Some(kind) = self.kind {
            self.notes.trouble(kind, trouble);
            self.trouble = Some(trouble);
        }
    }

    /// Tells that what was told last is over.
    fn tell_over(&mut self, trouble: Trouble) {
        if let Some(kind) = self.kind {
            if !self.stop.is_stopped() {
                self.notes.over(kind, trouble);
            }
        }
        self.trouble = None;
    }

    /// Notes what is said of the kind.
    pub(crate) fn note(&mut self, news: News) {
        match (news, self.trouble) {
            (News::Troubled(trouble), _) => self.tell(trouble),
            (_, Some(trouble)) if is_over(news, trouble) => self.tell_over(trouble),
            _ => {}
        }
    }

    /// Notes what the answer to who asked for objects of a kind says.
    pub(crate) fn note_news(&mut self, kind: Kind, news: News) {
        self.kind = Some(kind);
        self.note(news);
    }

    /// Notes that a request of one object of a kind was not sent or not answered, unless that was told and none was answered since.
    fn note_unanswered(&mut self, kind: Kind) {
        if self.unanswered.is_none() && !self.stop.is_stopped() {
            self.notes.trouble(kind, Trouble::NoReply);
            self.unanswered = Some(kind);
        }
    }

    /// Notes that a request of one object was answered.
    fn note_answered(&mut self) {
        if let Some(kind) = self.unanswered {
            if !self.stop.is_stopped() {
                self.notes.over(kind, Trouble::NoReply);
            }
        }
        self.unanswered = None;
    }

    /// Notes what became of a request of one object.
    pub(crate) fn note_called(&mut self, request: &Request, answer: &Answer) {
        match answer {
            Answer::Replied(reply) => {
                self.note_answered();
                if is_told(request, reply.code) && !self.stop.is_stopped() {
                    self.notes.refused(request, reply.code, &reply.body);
                }
            }
            Answer::NotSent | Answer::Lost => self.note_unanswered(request.kind()),
        }
    }
}
