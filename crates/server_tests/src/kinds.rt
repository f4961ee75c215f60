//! What is made for each kind.
ghost use Rattle.std.specs.Prelude.{◌≡◌};
ghost use Rattle.object_keys.specs.PerKind.{each_kind};

use object_keys::PerKind;
use spec_api::kinds::Kind;

/// Returns each kind with a number that the closure captures: a caller knows what was made by what it captured.
fn numbered(number: u64) -> PerKind<(Kind, u64)>
    ensures { result ≡ each_kind (λ k. (k, number)) }
{
    PerKind::made(|kind| (kind, number))
}

#[test]
fn what_is_made_has_what_was_captured(rt: HostRuntime) {
    assert_eq!(rt; *numbered(7).get(Kind::Deployment), (Kind::Deployment, 7));
}
