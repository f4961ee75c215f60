//! Which requests may be asked of a store that threads share.

/// Which requests may be asked of a store that threads share. Whoever calls a desk shows it of the request, and whoever sees
/// the desk's history knows it of all.
pub trait Asking {
    ghost use Rattle.spec_api.specs.ObjectRequests.{Request};

    /// The request may be asked.
    ghost MayAsk: { Request → Type 0 };
}

/// Any request.
pub struct Anything;

impl Asking for Anything {
    ghost use Rattle.desk.specs.Askings.{IsAny};

    ghost MayAsk = { IsAny };
}

/// Requests that can be read of bytes: what has happened at a desk of these is what a server can reach.
pub struct Readable;

impl Asking for Readable {
    ghost use Rattle.desk.specs.Askings.{IsReadable};

    ghost MayAsk = { IsReadable };
}
