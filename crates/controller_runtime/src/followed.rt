//! The kinds that a controller follows.
ghost use Rattle.std.specs.Prelude.{◌≡◌};
ghost use Rattle.controller_runtime.specs.Kinds.{apis_named, kinds_in, none_followed};

use object_keys::PerKind;
use spec_api::kinds::Kind;

/// A kind that a controller follows, and how the server is asked for its objects: all of them, or those of a scope (`api_client::Remote::within`).
#[derive(Drop)]
pub struct Followed<A> {
    pub kind: Kind,
    pub api: A,
}

/// Returns that no kind is followed.
fn none_followed<A: Drop>() -> PerKind<Option<A>>
    ensures { result ≡ none_followed }
{
    PerKind::made(|_| None)
}

/// Returns how the server is asked for the objects of each kind: as the first says that names it, and nothing of a kind that none names.
pub(crate) fn apis_of<A: Drop>(followed: Vec<Followed<A>>) -> PerKind<Option<A>>
    ensures { result ≡ apis_named followed.items }
{
    let mut apis = none_followed();
    let mut left = followed;
    while let Some(last) = left.pop() {
        let Followed { kind, api } = last;
        apis.put(kind, Some(api));
    }
    apis
}

/// Returns how many kinds are followed.
pub(crate) fn kinds_in<A>(apis: &PerKind<Option<A>>) -> u64
    ensures { result ≡ kinds_in apis.now }
{
    Kind::ALL
        .iter()
        .filter(|kind| apis.get(**kind).is_some())
        .count() as u64
}
