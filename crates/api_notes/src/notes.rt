//! Who is told how it goes with a server.
ghost use Rattle.std.specs.Prelude.{◌≡◌};
ghost use Rattle.api_notes.specs.Named.{first_shown};

use crate::named::{name_of, namespace_of};
use crate::trouble::Trouble;
use keyed_board::Failure;
use request_parts::Request;
use spec_api::kinds::Kind;

/// How many bytes are shown of a text that a server sent, or that it is to be sent. A name has 253 at most, and so many of a Status of a Kubernetes
/// API server have its message, behind some 70 that each has.
const MOST_SHOWN: usize = 400;

/// Is told how it goes with a server. Threads tell side by side, and wait while they do.
pub trait Notes {
    /// Is told what keeps the objects of a kind from coming: once, until that is over or something else keeps them. So it is told, as
    /// `Trouble::NoReply`, that a request of one object of the kind was not sent or not answered: once, until one is answered. Each `Told` tells for
    /// itself.
    fn trouble(&self, kind: Kind, trouble: Trouble);

    /// Is told that this is over, which it was told last of the kind.
    fn over(&self, kind: Kind, trouble: Trouble);

    /// Is told that a request of one object was refused, with a status code and a body, which says why as a Status (Kubernetes API Concepts), or was
    /// answered by one of redirection. It is told of each, but of 404 and 409: that an object is gone, or is another by now, is in the nature of
    /// working by a copy. Of 404 it is told where an object was to be made: its namespace or the path is not there.
    fn refused(&self, request: &Request, code: u16, body: &[u8]);

    /// Is told that a reconcile of a key failed, and why: once, and not for every retry, until the key is fine again or fails for another cause. Of a
    /// conflict (409) it is not told. Who does not ask by keys is not told, and need not write this.
    fn failed(&self, _key: &str, _failure: Failure) {}

    /// Is told that a key is fine again, of which it was told that its reconcile failed.
    fn recovered(&self, _key: &str) {}
}

/// Notes nothing.
#[derive(Clone, Copy)]
pub struct Silent;

impl Notes for Silent {
    fn trouble(&self, _kind: Kind, _trouble: Trouble) {}

    fn over(&self, _kind: Kind, _trouble: Trouble) {}

    fn refused(&self, _request: &Request, _code: u16, _body: &[u8]) {}
}

/// Writes what it is told on standard error, each time a line behind the name of the program. Of a refused request these are its verb, the kind,
/// namespace and name of its object, or what a name is to be made of (`generateName`), the status code, and the beginning of the body; of a key whose
/// reconcile failed its text and the cause: of each text 400 bytes at most, and those that are no printable ASCII by their escapes. What cannot be
/// written is left out.
#[derive(Drop)]
pub struct StandardError<'a, R> {
    rt: &'a R,
    program: &'a str,
}

impl<'a, R> StandardError<'a, R> {
    /// Returns what writes for a program of this name.
    pub fn new(rt: &'a R, program: &'a str) -> StandardError<'a, R> {
        StandardError { rt, program }
    }
}

/// Returns what a request does, in a word or two.
fn verb(request: &Request) -> &'static str {
    match request {
        Request::Get(_) => "get",
        Request::List(_) => "list",
        Request::Create(_, _, _) => "create",
        Request::Update(_, _) => "update",
        Request::UpdateStatus(_, _) => "status update",
        Request::Patch(_, _) => "patch",
        Request::Delete(_, _) => "delete",
    }
}

/// Returns the first of some bytes, as many as are shown.
fn first_shown(bytes: &[u8]) -> &[u8]
    ensures { result.now ≡ first_shown bytes.now }
{
    &bytes[..bytes.len().min(MOST_SHOWN)]
}

impl<R: Eprint> Notes for StandardError<'_, R> {
    fn trouble(&self, kind: Kind, trouble: Trouble) {
        let _ = eprintln!(self.rt; "{}: {}: {trouble}", self.program, kind.plural());
    }

    fn over(&self, kind: Kind, trouble: Trouble) {
        let _ = eprintln!(self.rt; "{}: {}: no longer: {trouble}", self.program, kind.plural());
    }

    fn refused(&self, request: &Request, code: u16, body: &[u8]) {
        let _ = eprintln!(self.rt;
            "{}: {} of {} {}/{} refused with {code}: {}",
            self.program,
            verb(request),
            request.kind().plural(),
            first_shown(namespace_of(request).as_bytes()).escape_ascii(),
            first_shown(name_of(request).as_bytes()).escape_ascii(),
            first_shown(body).escape_ascii()
        );
    }

    fn failed(&self, key: &str, failure: Failure) {
        let key = first_shown(key.as_bytes()).escape_ascii();
        let _ = eprintln!(self.rt; "{}: {key}: reconcile failed: {failure}", self.program);
    }

    fn recovered(&self, key: &str) {
        let key = first_shown(key.as_bytes()).escape_ascii();
        let _ = eprintln!(self.rt; "{}: {key}: reconciled again", self.program);
    }
}
