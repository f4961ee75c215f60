//! What is said of a server on standard error.
use crate::denials::denies;
use crate::errand::Errand;
use crate::escaped::escaped;
use crate::heard::may_want_tls;
use crate::reach::Reach;
use crate::refusals::refuses_list;
use crate::trouble::Trouble;
use http_client::statuses::{CONFLICT, FIRST_REDIRECTION, FIRST_SERVER_ERROR, OK};
use spec_api::kinds::Kind;
use std::alloc::{AllocError, Global};

/// How many bytes are shown of what is not understood.
const MOST_SHOWN: usize = 100;

/// How many bytes are shown of what says why a write is denied.
const MOST_REASONS: usize = 400;

/// Says on standard error what keeps a server from answering, once, and that it is over, once.
#[derive(Drop)]
pub struct Teller<'a, R> {
    rt: &'a R,
    alloc: Global,
    port: u16,
    reach: &'a Reach,
}

/// Returns the first of some bytes, and then others, as a terminal may be shown them.
fn first_shown(alloc: Global, begun: &[u8], bytes: &[u8]) -> Result<String, AllocError> {
    let more = bytes
        .get(..MOST_SHOWN.saturating_sub(begun.len()))
        .unwrap_or(bytes);
    let mut text = escaped(alloc, begun)?;
    text.push_str(escaped(alloc, more)?.as_str())?;
    Ok(text)
}

/// Returns what is said beside a trouble that TLS may be the reason of.
fn tls_hint(wants_tls: bool) -> &'static str {
    if wants_tls {
        ", as where its port wants TLS"
    } else {
        ""
    }
}

impl<'a, R> Teller<'a, R> {
    /// Returns what speaks of the server of a port.
    pub(crate) fn new(rt: &'a R, alloc: Global, port: u16, reach: &'a Reach) -> Teller<'a, R> {
        Teller {
            rt,
            alloc,
            port,
            reach,
        }
    }
}

impl<R: Eprint> Teller<'_, R> {
    /// Says something of the server on standard error.
    fn say(&self, words: &str) {
        let _ = eprintln!(self.rt; "kcp: the server at 127.0.0.1:{} {words}", self.port);
    }

    /// Says a status code that the server answers with.
    fn say_code(&self, code: u16) {
        let _ = eprintln!(self.rt; "kcp: the server at 127.0.0.1:{} answers {code}", self.port);
    }

    /// Says that what was wrong with its answers is over: by these words, where something else is still wrong with them.
    fn say_over(&self, words: &str) {
        if self.reach.answers_well() {
            self.say("answers again");
        } else {
            self.say(words);
        }
    }

    /// Notes a trouble with the server, and says it if it is news.
    pub(crate) fn note(&self, trouble: Trouble) {
        if self.reach.is_news(trouble) {
            self.tell(trouble);
        }
    }

    /// Says a trouble with the server.
    fn tell(&self, trouble: Trouble) {
        match trouble {
            Trouble::Unreachable => self.say("cannot be reached"),
            Trouble::NoDescriptor => {
                self.say("cannot be reached, as this program has no descriptor left")
            }
            Trouble::NoMemory => self.say("cannot be reached, as this program has no memory left"),
            Trouble::Unreadable | Trouble::NoReply => self.say("is not understood"),
        }
    }

    /// Notes that what came is not understood, and says how it begins if that is news: with some bytes, and then others.
    pub(crate) fn note_not_understood(&self, trouble: Trouble, begun: &[u8], bytes: &[u8]) {
        match first_shown(self.alloc, begun, bytes) {
            Ok(text) => {
                if self.reach.is_news(trouble) {
                    let _ = eprintln!(self.rt;
                        "kcp: the server at 127.0.0.1:{} is not understood{}: {text}",
                        self.port,
                        tls_hint(may_want_tls(bytes))
                    );
                }
            }
            Err(_) => self.note(trouble),
        }
    }

    /// Notes that there is a connection, and what reads it.
    pub(crate) fn note_ready(&self) {
        if self.reach.is_there_again() {
            self.say("is there again");
        }
    }

    /// Notes a status code that an errand was answered with: from 500 on it says that the server has failed (RFC 9110, Server Error 5xx).
    pub(crate) fn note_answered(&self, errand: Errand, code: u16) {
        if code >= FIRST_SERVER_ERROR {
            if self.reach.failures.note_failed(errand) {
                self.say_code(code);
            }
        } else if self.reach.failures.note_answered(errand) {
            self.say_over("fails no longer");
        }
    }

    /// Notes a status code that a list of a kind was answered with, or a stream that stands for one.
    pub(crate) fn note_listed(&self, kind: Kind, code: u16) {
        if refuses_list(code) {
            if self.reach.refusals.note_refused(kind, code) {
                self.say_code(code);
            }
        } else if code == OK && self.reach.refusals.note_listed(kind) {
            self.say_over("refuses no list any more");
        }
        self.note_answered(Errand::follow(kind), code);
    }

    /// Notes an answer that was lost, though the server is there. Where what comes is no reply, that was said already.
    pub(crate) fn note_lost(&self) {
        if !self.reach.sends_no_reply() && self.reach.losses.note_lost() {
            let _ = eprintln!(self.rt;
                "kcp: the server at 127.0.0.1:{} gives no whole reply{}",
                self.port,
                tls_hint(self.reach.wants_tls())
            );
        }
    }

    /// Notes whether what the server sends begins as where TLS is wanted.
    pub(crate) fn note_begun(&self, wants_tls: bool) {
        self.reach.note_begun(wants_tls);
    }

    /// Notes that a whole reply came.
    pub(crate) fn note_whole(&self) {
        if self.reach.losses.note_whole() {
            self.say_over("gives whole replies again");
        }
    }

    /// Notes a status code that a write was answered with.
    pub(crate) fn note_written(&self, code: u16) {
        if code == CONFLICT {
            if self.reach.strife.note_conflict() {
                self.say(
                    "refuses writes as conflicts again and again, as where another controller manager works",
                );
            }
        } else if code < FIRST_REDIRECTION {
            self.reach.strife.note_taken();
        }
    }

    /// Notes what a write was answered with: a status code, and what says why. The first of a sort that is denied is said, and that it no longer is.
    pub(crate) fn note_decided(&self, errand: Errand, name: &str, code: u16, body: &[u8]) {
        if denies(code) {
            if self.reach.denials.note_denied(errand, code) {
                self.say_denied(errand, name, code, body);
            }
        } else if code < FIRST_REDIRECTION && self.reach.denials.note_taken(errand) {
            let _ = eprintln!(self.rt;
                "kcp: the server at 127.0.0.1:{} takes a {} of {} again",
                self.port,
                errand.deed.word(),
                errand.kind.plural()
            );
        }
    }

    /// Says that a write of an object is denied with a code, and why, as far as there is memory for that.
    fn say_denied(&self, errand: Errand, name: &str, code: u16, body: &[u8]) {
        let why = escaped(self.alloc, body.get(..MOST_REASONS).unwrap_or(body));
        let _ = eprintln!(self.rt;
            "kcp: the server at 127.0.0.1:{} answers {code} to a {} of {}, as of {name}: {}",
            self.port,
            errand.deed.word(),
            errand.kind.plural(),
            why.as_ref().map_or("", |text| text.as_str())
        );
    }

    /// Notes that who asks has not understood what came, and had understood what came before.
    pub(crate) fn note_puzzled(&self) {
        self.reach.note_puzzled();
    }

    /// Notes that what the server sent was read as what it is to be, by one that may not have understood what came before.
    pub(crate) fn note_understood(&self, was_puzzled: bool) {
        self.reach.note_answered();
        if self.reach.is_understood_again(was_puzzled) {
            self.say("is understood again");
        }
    }
}
