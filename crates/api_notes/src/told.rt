//! A server that is asked, and told of.
ghost use Rattle.std.specs.Prelude.{◌≡◌};
ghost use Rattle.api_notes.specs.Told.{api_of};

use crate::news::{News, first_news, list_news, stream_news, watch_news};
use crate::notes::Notes;
use crate::teller::Teller;
use crate::trouble::Trouble;
use api_client::{Api, Opened};
use http_client::{Answer, More};
use request_parts::Request;
use spec_api::kinds::Kind;
use std::alloc::Global;
use wakeups::Stop;

/// A server that is asked as an API asks it, and of which is told what goes wrong: of the lists and watches of a kind what keeps them from coming,
/// and that they come again; of requests of one object which are refused. The kind is to be one for each of these; who asks for no list has none.
#[derive(Drop)]
pub struct Told<'a, A: Drop, N> {
    api: A,
    teller: Teller<'a, N>,
}

impl<'a, A: Drop, N: Notes> Told<'a, A, N> {
    /// Returns the server that an API asks. Nothing is told any more once a stop is asked for.
    pub fn new(api: A, notes: &'a N, stop: &'a Stop) -> Told<'a, A, N>
        ensures { api_of result ≡ api }
    {
        Told {
            api,
            teller: Teller::new(notes, stop),
        }
    }
}

impl<A: Api + Drop, N: Notes> Api for Told<'_, A, N> {
    ghost answers = { λ before request answer after. A.answers (api_of before) request answer (api_of after) };

    ghost exchanges = { λ before exchanged after. A.exchanges (api_of before) exchanged (api_of after) };

    fn call(&mut self, alloc: Global, request: &Request) -> Answer {
        let answer = self.api.call(alloc, request);
        self.teller.note_called(request, &answer);
        answer
    }

    fn list(&mut self, alloc: Global, kind: Kind) -> Answer {
        let answer = self.api.list(alloc, kind);
        self.teller.note_news(kind, list_news(&answer));
        answer
    }

    fn first_at(&mut self, alloc: Global, kind: Kind, revision: u64) -> Answer {
        let answer = self.api.first_at(alloc, kind, revision);
        self.teller.note_news(kind, first_news(&answer));
        answer
    }

    fn open_watch(&mut self, alloc: Global, kind: Kind, revision: u64) -> Opened {
        let opened = self.api.open_watch(alloc, kind, revision);
        self.teller.note_news(kind, watch_news(opened));
        opened
    }

    fn open_stream(&mut self, alloc: Global, kind: Kind) -> Opened {
        let opened = self.api.open_stream(alloc, kind);
        self.teller.note_news(kind, stream_news(opened));
        opened
    }

    fn more(&mut self, buf: &mut [u8]) -> More {
        self.api.more(buf)
    }

    fn note_understood(&mut self) {
        self.teller.note(News::Understood);
        self.api.note_understood();
    }

    fn note_not_understood(&mut self, bytes: &[u8]) {
        self.teller.note(News::Troubled(Trouble::NotUnderstood));
        self.api.note_not_understood(bytes);
    }
}
