//! Changes that can be refused where another has written since.
ghost use Rattle.std.specs.Prelude.{◌≡◌, IfOk, IfErr, Some, Ok, option_map};
ghost use Rattle.request_parts.specs.Requests.{request_of};
ghost use Rattle.reconciler.specs.Guarded.{guarded, Refuses};

use keyed_board::Failure;
use meta::Object;
use request_parts::Request;

/// Returns the request for a change of an object that was seen, which names the version that was. The error is that it says none: a write that names
/// none is refused to nobody, and what another has written since would be lost.
pub(crate) fn guarded(seen: &Object, request: Request) -> Result<Option<Request>, Failure>
    ensures asked { IfOk result (λ next. guarded seen.now.value (Some (request_of request)) ≡ Ok (option_map request_of next)) }
    ensures refused { IfErr result (Refuses (guarded seen.now.value (Some (request_of request)))) }
{
    match seen.resource_version() {
        Some(_) => Ok(Some(request)),
        None => Err(Failure::NoVersion),
    }
}
