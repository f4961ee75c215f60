//! Queries of targets.
ghost use Rattle.std.specs.Prelude.{◌≡◌, IfOk, codes};
ghost use Rattle.std.specs.Result.{result_map_both};
ghost use Rattle.form_urlencoded.specs.Form.{raw_pairs};
ghost use Rattle.spec_api.specs.DeleteOptions.{stated_policy};
ghost use Rattle.spec_api.specs.ListQueries.{collection_of};
ghost use Rattle.spec_api.specs.Queries.{query_of, parameter};
ghost use Rattle.spec_api.specs.Targets.{only_policy, query_for};
ghost use Rattle.request_parts.specs.RoutesSeen.{route_seen};
ghost use Rattle.request_parts.specs.Collected.{Gives};
ghost use Rattle.request_parts.specs.Queried.{query_seen};

use crate::collections::{Collection, read_collection};
use crate::faults::QueryFault;
use crate::members::{Names, has_any, parameter};
use crate::targets::Target;
use spec_api::methods::Method;
use spec_api::policies::StatedPolicy;
use std::alloc::{AllocError, Global};

/// What a query adds to a request.
pub struct Query {
    /// Which objects of a collection are asked for, and what of them.
    pub collection: Collection,
    /// What becomes of the dependents of a deleted object, if the query names it.
    pub policy: StatedPolicy,
}

impl Drop for Query {
    // Called where one is dropped; a derived drop is proved anew at each such place.
    fn drop(self) {
        let Query {
            collection: _collection,
            policy: _policy,
        } = self;
    }
}

impl Query {
    /// Gives up which objects of a collection are asked for.
    pub fn into_collection(self) -> Collection
        ensures { result ≡ self.collection }
    {
        let Query {
            collection,
            policy: _,
        } = self;
        collection
    }
}

/// Returns the query of a list or a watch.
fn collection_query(alloc: Global, query: &[u8]) -> Result<Query, QueryFault>
    ensures { Gives query_seen (result_map_both (λ c. record { collection = c; policy = StatedPolicy.Nothing }) (λ p. p) (collection_of (raw_pairs query.now))) result }
{
    let collection = read_collection(alloc, query)?;
    Ok(Query {
        collection,
        policy: StatedPolicy::Nothing,
    })
}

/// Returns the policy that the query of a delete names.
fn policy(alloc: Global, query: &[u8]) -> Result<StatedPolicy, AllocError>
    ensures { IfOk result (λ said. said ≡ stated_policy (parameter (codes "propagationPolicy") (raw_pairs query.now))) }
{
    match parameter(alloc, query, "propagationPolicy")? {
        Some(name) => Ok(StatedPolicy::read(Some(name.as_str()))),
        None => Ok(StatedPolicy::read(None)),
    }
}

/// Returns a query of which nothing counts but the policy that a delete names.
fn only_policy(alloc: Global, query: &[u8], policy: StatedPolicy) -> Result<Query, QueryFault>
    ensures { Gives query_seen (only_policy (raw_pairs query.now) policy) result }
{
    if has_any(alloc, query, Names::Refused)? {
        return Err(QueryFault::BadQuery);
    }
    Ok(Query {
        collection: Collection::everything(alloc),
        policy,
    })
}

/// Returns the query of a delete.
fn delete_query(alloc: Global, query: &[u8]) -> Result<Query, QueryFault>
    ensures { Gives query_seen (only_policy (raw_pairs query.now) (stated_policy (parameter (codes "propagationPolicy") (raw_pairs query.now)))) result }
{
    let said = policy(alloc, query)?;
    only_policy(alloc, query, said)
}

/// Returns what stands after the first `?` of a target.
fn query_of<'t>(target: &'t str) -> &'t str
    ensures { result.now ≡ query_of target.now }
{
    match target.split_once('?') {
        Some((_, query)) => query,
        None => "",
    }
}

/// Returns what a target's query adds to what a method asks of the route. Unknown members are ignored, and of those
/// with one name the first counts.
pub fn read_query(
    alloc: Global,
    method: Method,
    route: Target<'_>,
    target: &str,
) -> Result<Query, QueryFault>
    ensures { Gives query_seen (query_for method (route_seen route.entry) target.now) result }
{
    let query = query_of(target).as_bytes();
    match (method, route) {
        (Method::Get, Target::Collection(_, _)) => collection_query(alloc, query),
        (Method::Delete, _) => delete_query(alloc, query),
        _ => only_policy(alloc, query, StatedPolicy::Nothing),
    }
}
