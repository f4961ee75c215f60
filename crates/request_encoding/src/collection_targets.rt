//! Targets of lists and watches.
ghost use Rattle.std.specs.Prelude.{◌≡◌, ◌<◌, ◌^◌, IfOk, map, string_bytes};
ghost use Rattle.form_urlencoded.specs.Form.{pair_text};
ghost use Rattle.request_encoding.specs.Seen.{scope_of};
ghost use Rattle.request_encoding.specs.Targets.{list_target, page_target, stream_target, target, watch_target};
ghost use Rattle.request_encoding.specs.ScopesTold.{Asks, IsPage, listed, paged, streamed, watched};

use crate::queries::push_query;
use crate::scopes::Scope;
use crate::targets::collection_target;
use spec_api::kinds::Kind;
use std::alloc::{AllocError, Global};

/// Returns the target of the collection of a kind in a scope, with further parameters.
fn target(
    alloc: Global,
    scope: &Scope,
    kind: Kind,
    parameters: &[(&str, &str)],
) -> Result<String, AllocError>
    ensures { IfOk result (λ t. string_bytes t ≡ target (scope_of scope.now) kind (map pair_text parameters.now)) }
{
    let mut text = collection_target(alloc, kind, scope.namespace())?;
    push_query(alloc, &mut text, scope.selector(), parameters)?;
    Ok(text)
}

/// Returns the target of a list of a kind in a scope: all objects, as they are at present. The error is running out of memory.
pub fn list_target(alloc: Global, scope: &Scope, kind: Kind) -> Result<String, AllocError>
    ensures target { IfOk result (λ t. string_bytes t ≡ list_target (scope_of scope.now) kind) }
    ensures asks { IfOk result (λ t. Asks (string_bytes t) (listed (scope_of scope.now) kind)) }
{
    target(alloc, scope, kind, &[])
}

/// Returns the target of the first objects of a kind in a scope, so many at most, as they were at just this revision. Servers refuse limits
/// of more than nine digits, and the revision 0. The error is running out of memory.
pub fn page_target(
    alloc: Global,
    scope: &Scope,
    kind: Kind,
    limit: u32,
    revision: u64,
) -> Result<String, AllocError>
    ensures target { IfOk result (λ t. string_bytes t ≡ page_target (scope_of scope.now) kind limit revision) }
    ensures asks { IsPage limit revision → IfOk result (λ t. Asks (string_bytes t) (paged (scope_of scope.now) kind limit revision)) }
{
    let most = limit.to_string(alloc)?;
    let at = revision.to_string(alloc)?;
    let parameters = [
        ("limit", most.as_str()),
        ("resourceVersion", at.as_str()),
        ("resourceVersionMatch", "Exact"),
    ];
    target(alloc, scope, kind, &parameters)
}

/// Returns the target of a watch of a kind in a scope after a revision, with bookmarks; after 0 it begins with the present objects
/// (Kubernetes API Concepts, Efficient detection of changes). The error is running out of memory.
pub fn watch_target(
    alloc: Global,
    scope: &Scope,
    kind: Kind,
    revision: u64,
) -> Result<String, AllocError>
    ensures target { IfOk result (λ t. string_bytes t ≡ watch_target (scope_of scope.now) kind revision) }
    ensures asks { revision < 2 ^ 53 → IfOk result (λ t. Asks (string_bytes t) (watched (scope_of scope.now) kind revision)) }
{
    let after = revision.to_string(alloc)?;
    let parameters = [
        ("watch", "true"),
        ("allowWatchBookmarks", "true"),
        ("resourceVersion", after.as_str()),
    ];
    target(alloc, scope, kind, &parameters)
}

/// Returns the target of a stream of a kind in a scope, that begins with the present objects as initial events, with bookmarks, of which
/// one closes them (Kubernetes API Concepts, Streaming lists). The error is running out of memory.
pub fn stream_target(alloc: Global, scope: &Scope, kind: Kind) -> Result<String, AllocError>
    ensures target { IfOk result (λ t. string_bytes t ≡ stream_target (scope_of scope.now) kind) }
    ensures asks { IfOk result (λ t. Asks (string_bytes t) (streamed (scope_of scope.now) kind)) }
{
    let parameters = [
        ("watch", "true"),
        ("allowWatchBookmarks", "true"),
        ("sendInitialEvents", "true"),
        ("resourceVersionMatch", "NotOlderThan"),
    ];
    target(alloc, scope, kind, &parameters)
}
