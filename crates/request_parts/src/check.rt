//! The checks of a request before its query is read.
ghost use Rattle.std.specs.Prelude.{◌≡◌, IfOk, IsOk};
ghost use Rattle.std.specs.Str.{IsUtf8};
ghost use Rattle.std.specs.Cow.{cow_str_bytes};
ghost use Rattle.spec_api.specs.Targets.{is_allowed, path_of, decoded};
ghost use Rattle.request_parts.specs.RoutesSeen.{route_seen};
ghost use Rattle.request_parts.specs.Checked.{checked_at};
ghost use Rattle.request_parts.specs.Seen.{checked_seen};

use crate::table::Routes;
use crate::targets::Target;
use object_keys::Fault;
use spec_api::methods::Method;
use spec_api::refusals::Part;
use std::alloc::{AllocError, Global};
use std::borrow::CowStr;
use thiserror::Error;

/// Why a request is refused before its query is read, by the first check that it does not pass.
#[derive(Debug, Clone, Copy, Error)]
pub enum CheckFault {
    /// The path names nothing that is served.
    #[error("the path names nothing that is served")]
    NoSuchPath,
    /// The path names what cannot be a namespace.
    #[error("the path names what cannot be a namespace")]
    BadNamespace,
    /// What the path names does not serve the method.
    #[error("the path does not serve the method")]
    MethodNotAllowed,
}

impl From<CheckFault> for Fault {
    ghost use Rattle.object_keys.specs.Faults.{refusal_of};
    ghost use Rattle.request_parts.specs.Seen.{check_refusal};

    ghost from_gives = { λ check f. refusal_of f ≡ check_refusal check };

    fn from(fault: CheckFault) -> Fault {
        match fault {
            CheckFault::NoSuchPath => Fault::NoSuchPath,
            CheckFault::BadNamespace => Fault::BadRequest(Part::Path),
            CheckFault::MethodNotAllowed => Fault::MethodNotAllowed,
        }
    }
}

/// Returns the path of a target: what stands before the first `?`.
fn path_of<'t>(target: &'t str) -> &'t str
    ensures { result.now ≡ path_of target.now }
{
    match target.split_once('?') {
        Some((path, _)) => path,
        None => target,
    }
}

/// Returns whether what a path names serves the method.
fn is_allowed(method: Method, target: Target<'_>) -> bool
    ensures { result ≡ is_allowed method (route_seen target.entry) }
{
    match (method, target) {
        (Method::Get, _) => true,
        (Method::Post, Target::Collection(_, Some(_))) => true,
        (Method::Put, Target::Object(_, _, _) | Target::Status(_, _, _)) => true,
        (Method::Patch | Method::Delete, Target::Object(_, _, _)) => true,
        _ => false,
    }
}

/// Returns what a request's target names, if the request passes the checks: of the path, of the path's namespace, and of the
/// method, in this order. The target is a path, and a query after a `?`.
pub fn check_request<'t>(
    routes: &Routes,
    method: Method,
    target: &'t str,
) -> Result<Target<'t>, CheckFault>
    ensures { checked_seen result ≡ checked_at method target.now }
{
    let Some(named) = routes.read(path_of(target)) else {
        return Err(CheckFault::NoSuchPath);
    };
    if !named.names_namespace() {
        return Err(CheckFault::BadNamespace);
    }
    if !is_allowed(method, named) {
        return Err(CheckFault::MethodNotAllowed);
    }
    Ok(named)
}

/// Returns a target as text: where its bytes are no UTF-8, each part that is none becomes U+FFFD. Memory is taken only then.
pub fn decode<'t>(alloc: Global, target: &'t [u8]) -> Result<CowStr<'t, Global>, AllocError>
    ensures text { IfOk result (λ text. cow_str_bytes text ≡ decoded target.now) }
    ensures needs_no_memory { IsUtf8 target.now → IsOk result }
{
    match str::from_utf8(target) {
        Ok(text) => Ok(CowStr::Borrowed(text)),
        Err(_) => Ok(CowStr::Owned(String::from_utf8_lossy(alloc, target)?)),
    }
}
