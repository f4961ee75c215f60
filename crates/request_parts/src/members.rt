//! Members of queries.
ghost use Rattle.std.specs.Prelude.{◌≡◌, IfOk, Some, codes, option_map};
ghost use Rattle.std.specs.Cow.{cow_str_bytes};
ghost use Rattle.std.specs.List.{list_any};
ghost use Rattle.std.specs.Str.{bytes_eq};
ghost use Rattle.form_urlencoded.specs.Form.{raw_pairs};
ghost use Rattle.spec_api.specs.ListQueries.{initial_of, is_true_value, match_of, version_of};
ghost use Rattle.spec_api.specs.Queries.{has_any, parameter, or_empty};
ghost use Rattle.spec_api.specs.SelectorFields.{fields_of_text};
ghost use Rattle.spec_api.specs.SelectorTexts.{selector_of_text};
ghost use Rattle.request_parts.specs.Queried.{Reads, names_seen};

use crate::faults::MemberFault;
use form_urlencoded::parse;
use metadata_values::revisions::read_revision;
use selector::{Fields, Selector};
use spec_api::versions::Match;
use std::alloc::{AllocError, Global};
use std::borrow::CowStr;

/// Names of members that are not understood.
#[derive(Clone, Copy)]
pub(crate) enum Names {
    /// No request may have them.
    Refused,
    /// No list may have them.
    OfNoList,
}

impl Names {
    ghost use Rattle.std.specs.Prelude.{◌≡◌};
    ghost use Rattle.std.specs.List.{list_any};
    ghost use Rattle.std.specs.Str.{bytes_eq};
    ghost use Rattle.request_parts.specs.Queried.{names_seen};

    fn has(self, name: &str) -> bool
        ensures { result ≡ list_any (bytes_eq name.now) (names_seen self) }
    {
        match self {
            Names::Refused => is_refused(name),
            Names::OfNoList => is_of_no_list(name),
        }
    }
}

fn is_refused(name: &str) -> bool
    ensures { result ≡ list_any (bytes_eq name.now) (names_seen Names.Refused) }
{
    name == "dryRun"
}

fn is_of_no_list(name: &str) -> bool
    ensures { result ≡ list_any (bytes_eq name.now) (names_seen Names.OfNoList) }
{
    name == "sendInitialEvents"
}

/// Returns whether a parameter has one of these names.
pub(crate) fn has_any(alloc: Global, query: &[u8], names: Names) -> Result<bool, AllocError>
    ensures { IfOk result (λ b. b ≡ has_any (names_seen names) (raw_pairs query.now)) }
{
    for pair in parse(alloc, query) {
        let (name, _) = pair?;
        if names.has(name.as_str()) {
            return Ok(true);
        }
    }
    Ok(false)
}

/// Returns the value of a parameter: of those with its name the first counts.
pub(crate) fn parameter<'q>(
    alloc: Global,
    query: &'q [u8],
    name: &str,
) -> Result<Option<CowStr<'q>>, AllocError>
    ensures { IfOk result (λ o. option_map cow_str_bytes o ≡ parameter name.now (raw_pairs query.now)) }
{
    for pair in parse(alloc, query) {
        let (found, value) = pair?;
        if found.as_str() == name {
            return Ok(Some(value));
        }
    }
    Ok(None)
}

/// Returns whether a value is `true`, `True`, as Python's client writes it, or `1`.
pub(crate) fn is_true(value: &str) -> bool
    ensures { result ≡ is_true_value (Some value.now) }
{
    value == "true" || value == "True" || value == "1"
}

/// Returns whether a parameter is there and true.
pub(crate) fn is_true_value(alloc: Global, query: &[u8], name: &str) -> Result<bool, AllocError>
    ensures { IfOk result (λ b. b ≡ is_true_value (parameter name.now (raw_pairs query.now))) }
{
    match parameter(alloc, query, name)? {
        Some(value) => Ok(is_true(value.as_str())),
        None => Ok(false),
    }
}

/// Returns the revision that a text names; no text and an empty one name none.
fn version_of(text: Option<CowStr<'_>>) -> Option<Option<u64>>
    ensures { result ≡ version_of (option_map cow_str_bytes text.entry) }
{
    match text {
        None => Some(None),
        Some(text) if text.as_str().is_empty() => Some(None),
        Some(text) => Some(Some(read_revision(text.as_str())?)),
    }
}

/// Returns the revision that a query names, if any.
pub(crate) fn version(alloc: Global, query: &[u8]) -> Result<Option<u64>, MemberFault>
    ensures { Reads (version_of (parameter (codes "resourceVersion") (raw_pairs query.now))) result }
{
    match version_of(parameter(alloc, query, "resourceVersion")?) {
        Some(version) => Ok(version),
        None => Err(MemberFault::BadQuery),
    }
}

/// Returns the match that a name says; no name says none.
fn match_of(name: Option<CowStr<'_>>) -> Option<Match>
    ensures { result ≡ match_of (option_map cow_str_bytes name.entry) }
{
    match name {
        None => Match::read(None),
        Some(name) => Match::read(Some(name.as_str())),
    }
}

/// Returns how a query wants the revision to be matched.
pub(crate) fn matched(alloc: Global, query: &[u8]) -> Result<Match, MemberFault>
    ensures { Reads (match_of (parameter (codes "resourceVersionMatch") (raw_pairs query.now))) result }
{
    match match_of(parameter(alloc, query, "resourceVersionMatch")?) {
        Some(matched) => Ok(matched),
        None => Err(MemberFault::BadQuery),
    }
}

/// Returns whether a query names initial events, and then whether it wants them.
pub(crate) fn initial(alloc: Global, query: &[u8]) -> Result<Option<bool>, AllocError>
    ensures { IfOk result (λ o. o ≡ initial_of (parameter (codes "sendInitialEvents") (raw_pairs query.now))) }
{
    match parameter(alloc, query, "sendInitialEvents")? {
        None => Ok(None),
        Some(value) => Ok(Some(is_true(value.as_str()))),
    }
}

/// Returns the text, or the empty one where there is none.
fn or_empty<'t>(text: &'t Option<CowStr<'_>>) -> &'t str
    ensures { result.now ≡ or_empty (option_map cow_str_bytes text.now) }
{
    match text {
        Some(text) => text.as_str(),
        None => "",
    }
}

/// Returns the selector of labels in a query.
pub(crate) fn labels(alloc: Global, query: &[u8]) -> Result<Selector, MemberFault>
    ensures { Reads (selector_of_text (or_empty (parameter (codes "labelSelector") (raw_pairs query.now)))) result }
{
    let text = parameter(alloc, query, "labelSelector")?;
    match Selector::parse(alloc, or_empty(&text)) {
        Ok(labels) => Ok(labels),
        Err(selector::SelectorFault::NoMemory) => Err(MemberFault::NoMemory),
        Err(_) => Err(MemberFault::BadQuery),
    }
}

/// Returns the selector of fields in a query.
pub(crate) fn fields(alloc: Global, query: &[u8]) -> Result<Fields, MemberFault>
    ensures { Reads (fields_of_text (or_empty (parameter (codes "fieldSelector") (raw_pairs query.now)))) result }
{
    let text = parameter(alloc, query, "fieldSelector")?;
    match Fields::parse(alloc, or_empty(&text)) {
        Ok(fields) => Ok(fields),
        Err(selector::SelectorFault::NoMemory) => Err(MemberFault::NoMemory),
        Err(_) => Err(MemberFault::BadQuery),
    }
}
