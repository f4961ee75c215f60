//! A server, as who asks it sees it.
ghost use Rattle.std.specs.Prelude.{⊤};
ghost use Rattle.http_client.specs.declared.answer.Answer as outcome;
ghost use Rattle.spec_api.specs.ObjectRequests as words;
ghost use Rattle.request_parts.specs.Requests.{request_of};
ghost use Rattle.api_client.specs.Exchanges as exchange;

use crate::opened::Opened;
use http_client::{Answer, More};
use request_parts::Request;
use spec_api::kinds::Kind;
use std::alloc::Global;

/// A server that is asked. Its lists, watches and streams of a kind are of all objects of it, or of those that it was made to ask for.
pub trait Api {
    /// What a server is after it was asked a request of one object, and what became of the request: any relation, and none where an
    /// implementer gives none.
    ghost answers: { Self → words.Request → outcome.Answer → Self → Type 0 } = { λ before request answer after. ⊤ };

    /// What a server is after it was asked for what keeps the copy of a kind up to date, or told of what came, and what became of that: any relation,
    /// and none where an implementer gives none.
    ghost exchanges: { Self → exchange.Exchange → Self → Type 0 } = { λ before exchanged after. ⊤ };

    /// Asks a request of one object, and returns what became of it. It is not sent where it cannot be told over HTTP
    /// (`request_encoding::can_be_told`), or memory runs out before a byte is written.
    fn call(&mut self, alloc: Global, request: &Request) -> Answer
        ensures { answers self.old (request_of request.now) result self.new };

    /// Asks for a list of a kind, and returns what became of it.
    fn list(&mut self, alloc: Global, kind: Kind) -> Answer
        ensures { exchanges self.old (exchange.list kind result) self.new };

    /// Asks for the first object of the list of a kind, as it was at just this revision, and returns what became of it: a list of that
    /// object, or of none. By it a server is known again.
    fn first_at(&mut self, alloc: Global, kind: Kind, revision: u64) -> Answer
        ensures { exchanges self.old (exchange.first kind revision result) self.new };

    /// Asks for a watch of a kind, after a revision. A watch that was open is left.
    fn open_watch(&mut self, alloc: Global, kind: Kind, revision: u64) -> Opened
        ensures { exchanges self.old (exchange.watch kind revision result) self.new };

    /// Asks for a stream of a kind, in place of a list: the present objects come as initial events, and a watch goes on after them. A watch
    /// that was open is left.
    fn open_stream(&mut self, alloc: Global, kind: Kind) -> Opened
        ensures { exchanges self.old (exchange.stream kind result) self.new };

    /// Reads on in the watch that is open; it is cut where none is, or where the buffer has no room.
    fn more(&mut self, buf: &mut [u8]) -> More
        ensures { exchanges self.old (exchange.read result buf.new) self.new };

    /// Is told that a list, or bytes of a watch, were read as such.
    fn note_understood(&mut self)
        ensures { exchanges self.old exchange.understood self.new };

    /// Is told that what came in the place of a list, or of frames of a watch, is none.
    fn note_not_understood(&mut self, bytes: &[u8])
        ensures { exchanges self.old (exchange.not_understood bytes.now) self.new };
}
