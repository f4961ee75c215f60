//! What the query of a list asks of it.
ghost use Rattle.std.specs.Prelude.{◌≡◌, ◌==◌, Some, codes, option_map, unwrap_or};
ghost use Rattle.std.specs.Cow.{cow_str_bytes};
ghost use Rattle.std.specs.List.{list_all};
ghost use Rattle.form_urlencoded.specs.Form.{raw_pairs};
ghost use Rattle.spec_api.specs.ListQueries.{limit_of, list_at, going_on, by_token, list_options};
ghost use Rattle.spec_api.specs.Moments.{is_digit};
ghost use Rattle.spec_api.specs.Queries.{parameter};
ghost use Rattle.spec_api.specs.PageTokens.{token_of};
ghost use Rattle.request_parts.specs.Collected.{Gives, list_seen};
ghost use Rattle.request_parts.specs.Queried.{Reads};

use crate::faults::{MemberFault, QueryFault};
use crate::members::{matched, parameter, version};
use object_keys::Fault;
use pages::Token;
use spec_api::versions::{At, Match};
use std::alloc::Global;
use std::borrow::CowStr;

/// Which part of a list is asked for.
#[derive(Drop)]
pub struct ListOptions {
    /// At which revision the list is.
    pub at: At,
    /// At most how many objects are asked for; 0 is no limit.
    pub limit: usize,
    /// The token of the page before, after whose place they begin.
    pub after: Option<Token>,
}

/// Returns whether each byte of the text is a decimal digit.
fn has_digits(text: &str) -> bool
    ensures { result ≡ list_all is_digit text.now }
{
    text.bytes().all(|byte| b'0' <= byte && byte <= b'9')
}

/// Returns the limit that a text names; no text names none, which is 0.
fn limit_of(text: Option<CowStr<'_>>) -> Option<usize>
    ensures { result ≡ limit_of (option_map cow_str_bytes text.entry) }
{
    match text {
        None => Some(0),
        Some(text) => read_limit(text.as_str()),
    }
}

/// Returns the number that one to nine digits write.
fn read_limit(text: &str) -> Option<usize>
    ensures { result ≡ limit_of (Some text.now) }
{
    if text.is_empty() || !has_digits(text) {
        return None;
    }
    if text.len() > 9 {
        return None;
    }
    match text.parse::<usize>() {
        Ok(limit) => Some(limit),
        Err(_) => None,
    }
}

/// Returns the limit that a query names.
fn limit(alloc: Global, query: &[u8]) -> Result<usize, MemberFault>
    ensures { Reads (limit_of (parameter (codes "limit") (raw_pairs query.now))) result }
{
    match limit_of(parameter(alloc, query, "limit")?) {
        Some(limit) => Ok(limit),
        None => Err(MemberFault::BadQuery),
    }
}

/// Returns at which revision a list is, if how it is to be matched goes with the revision that is named. Where that is not
/// named, a limited list is exact: its pages are pages of one list.
fn list_at(limited: bool, matched: Match, version: Option<u64>) -> Option<At>
    ensures { result ≡ list_at limited matched version }
{
    match (matched, version) {
        (Match::Unset, None) => Some(At::Present),
        (_, None) => None,
        (Match::Exact, Some(0)) => None,
        (_, Some(0)) => Some(At::Present),
        (Match::Exact, Some(revision)) => Some(At::Exact(revision)),
        (Match::NotOlderThan, Some(revision)) => Some(At::NotOlder(revision)),
        (Match::Unset, Some(revision)) => {
            if limited {
                Some(At::Exact(revision))
            } else {
                Some(At::NotOlder(revision))
            }
        }
    }
}

/// Returns whether a query names no revision but 0: a list that goes on after a token has the token's.
fn names_no_other(version: Option<u64>) -> bool
    ensures { result ≡ (unwrap_or version 0 == 0) }
{
    match version {
        None => true,
        Some(revision) => revision == 0,
    }
}

/// Returns the list that goes on after a token's place, at the token's revision.
fn going_on(alloc: Global, limit: usize, text: &str) -> Result<ListOptions, QueryFault>
    ensures { Gives list_seen (going_on limit (token_of text.now)) result }
{
    match Token::read(alloc, text) {
        Ok(token) => Ok(ListOptions {
            at: At::Exact(token.revision),
            limit,
            after: Some(token),
        }),
        Err(Fault::BadRequest(_)) => Err(QueryFault::BadToken),
        // A token's reading has no other fault.
        Err(_) => Err(QueryFault::NoMemory),
    }
}

/// Returns the list by its page token, if it has one.
fn by_token(
    alloc: Global,
    limit: usize,
    version: Option<u64>,
    token: Option<CowStr<'_>>,
    at: At,
) -> Result<ListOptions, QueryFault>
    ensures { Gives list_seen (by_token limit version (option_map cow_str_bytes token.entry) at) result }
{
    match token {
        None => Ok(ListOptions {
            at,
            limit,
            after: None,
        }),
        Some(text) => {
            if names_no_other(version) {
                going_on(alloc, limit, text.as_str())
            } else {
                Err(QueryFault::BadQuery)
            }
        }
    }
}

/// Returns the options of a list. Its page token is looked at last.
pub(crate) fn list_options(alloc: Global, query: &[u8]) -> Result<ListOptions, QueryFault>
    ensures { Gives list_seen (list_options (raw_pairs query.now)) result }
{
    let limit = limit(alloc, query)?;
    let version = version(alloc, query)?;
    let matched = matched(alloc, query)?;
    let token = parameter(alloc, query, "continue")?;
    match list_at(limit != 0, matched, version) {
        Some(at) => by_token(alloc, limit, version, token, at),
        None => Err(QueryFault::BadQuery),
    }
}
