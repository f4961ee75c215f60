//! A server that plays a script.
ghost use Rattle.std.specs.Prelude.{◌≡◌, ◌++◌, ◌∷◌, [], OnOk, OnErr, slice_get};
ghost use Rattle.scripted_api.specs.Played.{Gives, GivesNext};

use crate::lines::line_of;
use api_client::{Api, Opened};
use http_client::{Answer, HttpReply, More};
use request_parts::Request;
use spec_api::kinds::Kind;
use std::alloc::{AllocError, Global};

/// What is recorded where a stream of initial events is asked for.
pub const STREAM: u64 = 1_000;

/// What is answered to a request of one object.
#[derive(Clone, Copy)]
pub enum ScriptedAnswer<'a> {
    /// A reply with a status code and a body.
    Replied(u16, &'a str),
    /// That it was not sent.
    NotSent,
    /// That nothing has come back.
    Lost,
}

/// What is answered to who asks for a watch, or for a stream of initial events: what becomes of it, and the pieces that it gives before it is cut, or ends.
#[derive(Clone, Copy)]
pub struct ScriptedWatch<'a> {
    pub opened: Opened,
    pub pieces: &'a [&'a str],
    pub ends: bool,
}

/// What is answered to who asks for the first object at a revision.
#[derive(Clone, Copy)]
pub struct First<'a> {
    pub code: u16,
    pub body: &'a str,
}

/// Returns a reply, or that it is lost where there is no memory for it, or where it has no body.
fn replied(alloc: Global, code: u16, body: &str) -> Answer {
    let mut bytes = Vec::new(alloc);
    if body.is_empty() || bytes.extend_from_slice(body.as_bytes()).is_err() {
        return Answer::Lost;
    }
    Answer::Replied(HttpReply {
        code,
        retry_after: None,
        body: bytes,
    })
}

/// Returns what a script says, as an answer; a reply is lost where there is no memory for its body.
fn given(alloc: Global, scripted: ScriptedAnswer<'_>) -> Answer
    ensures { Gives scripted.entry result }
{
    match scripted {
        ScriptedAnswer::Replied(code, text) => {
            let mut body = Vec::new(alloc);
            match body.extend_from_slice(text.as_bytes()) {
                Ok(()) => Answer::Replied(HttpReply {
                    code,
                    retry_after: None,
                    body,
                }),
                Err(_) => Answer::Lost,
            }
        }
        ScriptedAnswer::NotSent => Answer::NotSent,
        ScriptedAnswer::Lost => Answer::Lost,
    }
}

/// A server that plays a script: it answers requests of one object, lists, first objects and watches in their order, and then no more. What is empty of
/// the last three is lost.
#[derive(Drop)]
pub struct Script<'a> {
    /// What is answered to the requests of one object, and how many of that were given.
    pub answers: &'a [ScriptedAnswer<'a>],
    pub played: usize,
    /// The requests, each as a line (`line_of`).
    pub requests: Vec<String>,
    pub lists: &'a [&'a str],
    pub firsts: &'a [First<'a>],
    pub watches: &'a [ScriptedWatch<'a>],
    /// How many lists, first objects and watches were answered, and how many pieces the last watch gave.
    pub listed: usize,
    pub looked: usize,
    pub opened: usize,
    pub given: usize,
    /// What was asked: 0 for a list, `STREAM` for a stream, the revision for a watch, and 100 more for the first object at it.
    pub asked: Vec<u64>,
    /// How often what came was understood, and how often not.
    pub understood: usize,
    pub not_understood: usize,
}

impl<'a> Script<'a> {
    /// Returns a server that answers so the requests of one object, and no lists and watches.
    pub fn new(alloc: Global, answers: &'a [ScriptedAnswer<'a>]) -> Script<'a>
        ensures answers { result.answers.now ≡ answers.now }
        ensures played { result.played ≡ 0 }
        ensures requests { result.requests.items ≡ [] }
    {
        Script {
            answers,
            played: 0,
            requests: Vec::new(alloc),
            lists: &[],
            firsts: &[],
            watches: &[],
            listed: 0,
            looked: 0,
            opened: 0,
            given: 0,
            asked: Vec::new(alloc),
            understood: 0,
            not_understood: 0,
        }
    }

    /// Notes a line. The error is running out of memory.
    fn note(&mut self, line: String) -> Result<(), AllocError>
        ensures noted { OnOk result (self.new.requests.items ≡ self.old.requests.items ++ line ∷ []) }
        ensures err { OnErr result (self.new.requests.items ≡ self.old.requests.items) }
        ensures answers { (self.new.answers.now ≡ self.old.answers.now) × (self.new.played ≡ self.old.played) }
    {
        self.requests.push(line)?;
        Ok(())
    }

    /// Gives the next answer.
    fn give(&mut self, alloc: Global) -> Answer
        ensures gives { GivesNext (slice_get self.old.answers.now self.old.played) self.old.played result self.new.played }
        ensures requests { self.new.requests.items ≡ self.old.requests.items }
        ensures answers { self.new.answers.now ≡ self.old.answers.now }
    {
        let Some(&scripted) = self.answers.get(self.played) else {
            return Answer::Lost;
        };
        self.played += 1;
        given(alloc, scripted)
    }

    /// Records what is asked.
    fn record(&mut self, asked: u64) {
        let _ = self.asked.push(asked);
    }
}

impl<'a> Api for Script<'a> {
    ghost use Rattle.scripted_api.specs.Played.{Plays};

    ghost answers = { λ before request answer after. Plays before request answer after };

    fn call(&mut self, alloc: Global, request: &Request) -> Answer {
        let Ok(Some(line)) = line_of(alloc, request) else {
            return Answer::NotSent;
        };
        match self.note(line) {
            Ok(()) => self.give(alloc),
            Err(_) => Answer::NotSent,
        }
    }

    fn list(&mut self, alloc: Global, _kind: Kind) -> Answer {
        self.record(0);
        let Some(&body) = self.lists.get(self.listed) else {
            return Answer::NotSent;
        };
        self.listed = self.listed.saturating_add(1);
        replied(alloc, 200, body)
    }

    fn first_at(&mut self, alloc: Global, _kind: Kind, revision: u64) -> Answer {
        self.record(revision.saturating_add(100));
        let Some(&first) = self.firsts.get(self.looked) else {
            return Answer::NotSent;
        };
        self.looked = self.looked.saturating_add(1);
        replied(alloc, first.code, first.body)
    }

    fn open_watch(&mut self, _alloc: Global, _kind: Kind, revision: u64) -> Opened {
        self.record(revision);
        let Some(watch) = self.watches.get(self.opened) else {
            return Opened::Lost;
        };
        let opened = watch.opened;
        self.opened = self.opened.saturating_add(1);
        self.given = 0;
        opened
    }

    fn open_stream(&mut self, alloc: Global, kind: Kind) -> Opened {
        self.open_watch(alloc, kind, STREAM)
    }

    fn more(&mut self, buf: &mut [u8]) -> More {
        let Some(watch) = self.watches.get(self.opened.saturating_sub(1)) else {
            return More::Cut;
        };
        let Some(&piece) = watch.pieces.get(self.given) else {
            return if watch.ends { More::End } else { More::Cut };
        };
        self.given = self.given.saturating_add(1);
        let len = piece.len().min(buf.len());
        buf[..len].copy_from_slice(&piece.as_bytes()[..len]);
        More::Bytes(len)
    }

    fn note_understood(&mut self) {
        self.understood = self.understood.saturating_add(1);
    }

    fn note_not_understood(&mut self, _bytes: &[u8]) {
        self.not_understood = self.not_understood.saturating_add(1);
    }
}
