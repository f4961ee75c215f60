//! A server that answers what it answered before, and takes down the first request after that.
ghost use Rattle.std.specs.Prelude.{◌≡◌, IfOk, string_bytes};
ghost use Rattle.std.specs.Str.{bytes_eq};
ghost use Rattle.controller_simulation.specs.Playing.{ListLine, PageLine};

use crate::past::{PastRequest, copied};
use api_client::{Api, Opened};
use http_client::{Answer, More};
use request_encoding::{Scope, list_target, page_target};
use request_parts::Request;
use scripted_api::line_of;
use spec_api::kinds::Kind;
use std::alloc::{AllocError, Global};

/// How far a reconcile came that is run once more.
#[derive(Drop)]
pub enum Reached {
    /// It asked what was noted, and nothing else.
    Repeating,
    /// It asked all that was noted, and then this.
    Asks(String),
    /// It asked something else than what was noted next.
    Differs,
    /// Memory ran out where it asked something.
    NoMemory,
}

/// A server that answers a reconcile what was answered before, in the same order. The first request beyond that is taken down, to be asked in a step of
/// its own; it and all that come after it are answered that they were not sent, by which the end of such a reconcile counts for nothing.
#[derive(Drop)]
pub struct Playback<'a> {
    /// What was asked before.
    pub past: &'a [PastRequest],
    /// How much of it was asked again.
    pub played: usize,
    pub reached: Reached,
}

/// Returns whether a request is the one of a line.
fn is_same(note: &PastRequest, line: &String) -> bool
    ensures { result ≡ bytes_eq (string_bytes note.now.line) (string_bytes line.now) }
{
    note.line.as_str() == line.as_str()
}

/// Returns the line by which a list of a kind is asked. The error is running out of memory.
fn list_line(alloc: Global, kind: Kind) -> Result<String, AllocError>
    ensures { IfOk result (ListLine kind) }
{
    let mut line = String::from_str(alloc, "GET ")?;
    line.push_str(list_target(alloc, &Scope::everything(), kind)?.as_str())?;
    Ok(line)
}

/// Returns the line by which the first object of a kind is asked, as it was at a revision. The error is running out of memory.
fn page_line(alloc: Global, kind: Kind, revision: u64) -> Result<String, AllocError>
    ensures { IfOk result (PageLine kind revision) }
{
    let mut line = String::from_str(alloc, "GET ")?;
    line.push_str(page_target(alloc, &Scope::everything(), kind, 1, revision)?.as_str())?;
    Ok(line)
}

impl<'a> Playback<'a> {
    ghost use Rattle.std.specs.Prelude.{◌≡◌, ◌⊎◌, IfOk, OnErr, option_map, slice_get, true};
    ghost use Rattle.controller_simulation.specs.declared.playback.Reached.TheVariants.{Repeating, NoMemory};
    ghost use Rattle.controller_simulation.specs.Answers.{came_of, not_sent};
    ghost use Rattle.controller_simulation.specs.Playing.{Is, IsNotSent, Repeats, is_repeating};

    /// Returns a server that answers so.
    pub fn new(past: &'a [PastRequest]) -> Playback<'a>
        ensures past { result.past.now ≡ past.now }
        ensures played { result.played ≡ 0 }
        ensures reached { result.reached ≡ Repeating }
    {
        Playback {
            past,
            played: 0,
            reached: Reached::Repeating,
        }
    }

    /// Returns whether nothing was asked yet but what was noted.
    fn is_repeating(&self) -> bool
        ensures { result ≡ is_repeating self.now.reached }
    {
        matches!(self.reached, Reached::Repeating)
    }

    /// Returns what was asked next before, if something was.
    fn next_past(&self) -> Option<&'a PastRequest>
        ensures { option_map (λ note. note.now) result ≡ slice_get self.now.past.now self.now.played }
    {
        let past = self.past;
        past.get(self.played)
    }

    /// Answers a line as before, or takes it down. The error is running out of memory, and changes nothing.
    fn answer_line(&mut self, alloc: Global, line: String) -> Result<Answer, AllocError>
        ensures same { self.new.past.now ≡ self.old.past.now }
        ensures ok { IfOk result (λ came. is_repeating self.old.reached ≡ true → Repeats (Is line) self.old came self.new ⊎ IsNotSent (Is line) ⊥ self.old came self.new) }
        ensures err { OnErr result (self.new.played ≡ self.old.played) }
    {
        match self.next_past() {
            None => {
                self.reached = Reached::Asks(line);
                Ok(Answer::NotSent)
            }
            Some(note) if !is_same(note, &line) => {
                self.reached = Reached::Differs;
                Ok(Answer::NotSent)
            }
            Some(note) => {
                let answer = copied(alloc, &note.answer)?;
                self.played += 1;
                Ok(answer)
            }
        }
    }

    /// Notes that memory ran out.
    fn give_up(&mut self) -> Answer
        ensures same { (self.new.past.now ≡ self.old.past.now) × (self.new.played ≡ self.old.played) }
        ensures reached { self.new.reached ≡ NoMemory }
        ensures answer { came_of result ≡ not_sent }
    {
        self.reached = Reached::NoMemory;
        Answer::NotSent
    }

    /// Answers a line as before, or takes it down; and notes where memory ran out.
    fn answer(&mut self, alloc: Global, line: String) -> Answer
        ensures same { self.new.past.now ≡ self.old.past.now }
        ensures answers { is_repeating self.old.reached ≡ true → Repeats (Is line) self.old result self.new ⊎ IsNotSent (Is line) ⊥ self.old result self.new }
    {
        match self.answer_line(alloc, line) {
            Ok(answer) => answer,
            Err(_) => self.give_up(),
        }
    }
}

impl<'a> Api for Playback<'a> {
    ghost use Rattle.controller_simulation.specs.Playing.{Answers, Exchanges};

    ghost answers = { λ before request answer after. Answers before request answer after };

    ghost exchanges = { λ before exchanged after. Exchanges before exchanged after };

    fn call(&mut self, alloc: Global, request: &Request) -> Answer {
        if !self.is_repeating() {
            return Answer::NotSent;
        }
        match line_of(alloc, request) {
            Ok(Some(line)) => self.answer(alloc, line),
            Ok(None) => Answer::NotSent,
            Err(_) => self.give_up(),
        }
    }

    fn list(&mut self, alloc: Global, kind: Kind) -> Answer {
        if !self.is_repeating() {
            return Answer::NotSent;
        }
        match list_line(alloc, kind) {
            Ok(line) => self.answer(alloc, line),
            Err(_) => self.give_up(),
        }
    }

    fn first_at(&mut self, alloc: Global, kind: Kind, revision: u64) -> Answer {
        if !self.is_repeating() {
            return Answer::NotSent;
        }
        match page_line(alloc, kind, revision) {
            Ok(line) => self.answer(alloc, line),
            Err(_) => self.give_up(),
        }
    }

    /// A reconcile opens no watch.
    fn open_watch(&mut self, _alloc: Global, _kind: Kind, _revision: u64) -> Opened {
        Opened::Lost
    }

    /// A reconcile opens no stream.
    fn open_stream(&mut self, _alloc: Global, _kind: Kind) -> Opened {
        Opened::Lost
    }

    fn more(&mut self, _buf: &mut [u8]) -> More {
        More::Cut
    }

    fn note_understood(&mut self) {}

    fn note_not_understood(&mut self, _bytes: &[u8]) {}
}
