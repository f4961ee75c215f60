//! The checks of a head.
ghost use Rattle.std.specs.Prelude.{◌≡◌, ℕ, Option, Some, ◌&&◌, not, is_some, map, codes};
ghost use Rattle.spec_api.specs.Targets.{Route, route, path_of, query_for};
ghost use Rattle.spec_http.specs.Heads as heads;
ghost use Rattle.spec_http.specs.Heads.{values_of, first_type};
ghost use Rattle.spec_http.specs.Checks.{length_or_none, query_checked, path_checked, checked};
ghost use Rattle.spec_http.specs.Checks as words;
ghost use Rattle.http_request_head.specs.Fields.{field_seen, IsLength};
ghost use Rattle.http_request_head.specs.RequestHeads.{head_seen};
ghost use Rattle.request_parts.specs.Collected.{read_seen};
ghost use Rattle.request_parts.specs.Queried.{query_seen};
ghost use Rattle.request_parts.specs.RoutesSeen.{route_seen};
ghost use Rattle.http_request_reader.specs.Openings.{Opens, ChecksBody};

use crate::opening::CheckedHead;
use http_request_head::body_length::content_length;
use http_request_head::field::has_transfer_coding;
use http_request_head::media_type::media_type;
use http_request_head::method::method_named;
use http_request_head::{BodyLength, HeaderField, RequestHead};
use object_keys::Fault;
use request_parts::check::check_request;
use request_parts::collections::CollectionRead;
use request_parts::query::{Query, read_query};
use request_parts::table::Routes;
use request_parts::targets::Target;
use spec_api::methods::Method;
use spec_api::refusals::Part;
use std::alloc::Global;

/// Returns what a head asks, but for its body. The error is the first refusal: of the length that it states, the path, the
/// namespace, the method, the query, the version that a watch needs, a length that is missing, the body's length, its media
/// type; or out of memory.
pub fn check_head<'h>(
    alloc: Global,
    routes: &Routes,
    head: &RequestHead<'h>,
) -> Result<CheckedHead<'h>, Fault>
    ensures { Opens (checked (head_seen head.now)) result }
{
    match content_length(&head.fields) {
        BodyLength::Bad => Err(Fault::BadRequest(Part::Head)),
        length => check_path(alloc, routes, head, length),
    }
}

/// Checks the path of a head, its namespace and the method, and then the rest. Whatever a path names can be got, so that of an
/// unknown method the path alone is checked.
fn check_path<'h>(
    alloc: Global,
    routes: &Routes,
    head: &RequestHead<'h>,
    length: BodyLength,
) -> Result<CheckedHead<'h>, Fault>
    ensures { (stated : Option ℕ) → IsLength (Some stated) length
        → Opens (path_checked (head_seen head.now) stated (route (path_of head.now.target.now))) result }
{
    let named = method_named(head.method);
    let target = match check_request(routes, named.unwrap_or(Method::Get), head.target) {
        Ok(target) => target,
        Err(fault) => return Err(Fault::from(fault)),
    };
    match named {
        Some(method) => check_query(alloc, head, method, target, length),
        None => Err(Fault::MethodNotAllowed),
    }
}

/// Checks the query of a head, and then its body.
fn check_query<'h>(
    alloc: Global,
    head: &RequestHead<'h>,
    method: Method,
    target: Target<'h>,
    length: BodyLength,
) -> Result<CheckedHead<'h>, Fault>
    ensures { (stated : Option ℕ) → IsLength (Some stated) length
        → Opens (query_checked (head_seen head.now) stated method (route_seen target.entry) (query_for method (route_seen target.entry) head.now.target.now)) result }
{
    let query = match read_query(alloc, method, target, head.target) {
        Ok(query) => query,
        Err(fault) => return Err(Fault::from(fault)),
    };
    match check_body(head, method, &query, length) {
        Ok(body_length) => Ok(CheckedHead {
            method,
            target,
            query,
            body_length,
        }),
        Err(fault) => Err(fault),
    }
}

/// Checks what a head says of its body, and that a watch is asked for over HTTP/1.1, and returns how long the body is.
fn check_body(
    head: &RequestHead<'_>,
    method: Method,
    query: &Query,
    length: BodyLength,
) -> Result<usize, Fault>
    ensures { (stated : Option ℕ) (r : Route) → IsLength (Some stated) length
        → ChecksBody (head_seen head.now) stated (record { method = method; route = r; query = query_seen query.now; body_length = length_or_none stated }) result }
{
    if is_watch(query) && head.minor == 0 {
        return Err(Fault::BadRequest(Part::Head));
    }
    if has_transfer_coding(&head.fields) || is_missing(method, length) {
        return Err(Fault::LengthRequired);
    }
    let body_length = match length {
        BodyLength::Missing => 0,
        BodyLength::Stated(length) => length,
        BodyLength::Bad | BodyLength::TooLong => return Err(Fault::TooLarge),
    };
    if !takes_type(method, &head.fields) {
        return Err(Fault::UnsupportedMediaType);
    }
    Ok(body_length)
}

/// Returns whether a watch is asked for.
fn is_watch(query: &Query) -> bool
    ensures { result ≡ words.is_watch (read_seen query.now.collection.read) }
{
    match query.collection.read {
        CollectionRead::List(_) => false,
        CollectionRead::Watch(_) => true,
    }
}

/// Returns whether a length that a method needs is missing.
fn is_missing(method: Method, length: BodyLength) -> bool
    ensures { (stated : Option ℕ) → IsLength (Some stated) length → result ≡ (heads.needs_length method && not (is_some stated)) }
{
    match method {
        Method::Post | Method::Put | Method::Patch => length == BodyLength::Missing,
        Method::Get | Method::Delete => false,
    }
}

/// Returns whether a method takes a body of the media type that the fields of its head name.
fn takes_type(method: Method, fields: &[HeaderField<'_>]) -> bool
    ensures { result ≡ heads.takes_type method (first_type (values_of (codes "content-type") (map field_seen fields.now))) }
{
    match (method, media_type(fields)) {
        (Method::Get | Method::Delete, _) => true,
        (Method::Post | Method::Put, None) => true,
        (Method::Post | Method::Put, Some(name)) => name.eq_ignore_ascii_case(b"application/json"),
        (Method::Patch, None) => false,
        (Method::Patch, Some(name)) => name.eq_ignore_ascii_case(b"application/merge-patch+json"),
    }
}
