//! What a head asks.
ghost use Rattle.std.specs.Prelude.{◌≡◌};

use request_parts::query::Query;
use request_parts::targets::Target;
use spec_api::methods::Method;

/// What the head of a request asks, but for its body: a method, a target, a query, and how many bytes the body has.
pub struct CheckedHead<'h> {
    pub method: Method,
    pub target: Target<'h>,
    pub query: Query,
    pub body_length: usize,
}

impl<'h> Drop for CheckedHead<'h> {
    // Called where one is dropped; a derived drop is proved anew at each such place.
    fn drop(self) {
        let CheckedHead {
            method: _method,
            target: _target,
            query: _query,
            body_length: _body_length,
        } = self;
    }
}

impl<'h> CheckedHead<'h> {
    /// Gives up the query.
    pub fn into_query(self) -> Query
        ensures { result ≡ self.entry.query }
    {
        let CheckedHead {
            method: _,
            target: _,
            query,
            body_length: _,
        } = self;
        query
    }
}
