//! What a request is to do.
ghost use Rattle.std.specs.Prelude.{◌≡◌};
ghost use Rattle.request_parts.specs.Requests.{kind_named, request_of};
ghost use Rattle.kcp_loopback.specs.Errands.{deed_of};

use request_parts::Request;
use spec_api::kinds::Kind;

/// What is done with objects, as far as a server may fail at one and not at another.
#[derive(Clone, Copy)]
pub(crate) enum Deed {
    /// They are listed, or watched.
    Follow,
    /// One is read.
    Get,
    /// One is made.
    Create,
    /// One is put in the place of another.
    Update,
    /// One is given a status.
    UpdateStatus,
    /// One is patched.
    Patch,
    /// One is removed.
    Delete,
}

impl Deed {
    /// Returns what it is called.
    pub(crate) fn word(self) -> &'static str {
        match self {
            Deed::Follow => "list",
            Deed::Get => "get",
            Deed::Create => "create",
            Deed::Update => "update",
            Deed::UpdateStatus => "update of the status",
            Deed::Patch => "patch",
            Deed::Delete => "delete",
        }
    }
}

/// What a server is asked to do with objects of a kind.
#[derive(Clone, Copy)]
pub(crate) struct Errand {
    pub(crate) kind: Kind,
    pub(crate) deed: Deed,
}

/// Returns what a request does with them.
fn deed_of(request: &Request) -> Deed
    ensures { result ≡ deed_of (request_of request.now) }
{
    match request {
        Request::Get(_) => Deed::Get,
        Request::List(_) => Deed::Follow,
        Request::Create(_, _, _) => Deed::Create,
        Request::Update(_, _) => Deed::Update,
        Request::UpdateStatus(_, _) => Deed::UpdateStatus,
        Request::Patch(_, _) => Deed::Patch,
        Request::Delete(_, _) => Deed::Delete,
    }
}

impl Errand {
    /// Returns what a request is to do.
    pub(crate) fn of(request: &Request) -> Errand
        ensures kind { result.kind ≡ kind_named (request_of request.now) }
        ensures deed { result.deed ≡ deed_of (request_of request.now) }
    {
        Errand {
            kind: request.kind(),
            deed: deed_of(request),
        }
    }

    /// Returns that the objects of a kind are to be listed or watched.
    pub(crate) fn follow(kind: Kind) -> Errand
        ensures kind { result.kind ≡ kind }
        ensures deed { result.deed ≡ Deed.Follow }
    {
        Errand {
            kind,
            deed: Deed::Follow,
        }
    }
}
