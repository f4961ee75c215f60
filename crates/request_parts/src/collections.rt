//! Queries of collections.
ghost use Rattle.std.specs.Prelude.{◌≡◌};
ghost use Rattle.form_urlencoded.specs.Form.{raw_pairs};
ghost use Rattle.spec_api.specs.ListQueries.{read_by, collection_of};
ghost use Rattle.request_parts.specs.Collected.{Gives, read_seen, collection_seen};

use crate::faults::QueryFault;
use crate::list_options::{ListOptions, list_options};
use crate::members::{Names, fields, has_any, is_true_value, labels};
use crate::watch_options::{WatchOptions, watch_options};
use selector::{Fields, Selector};
use spec_api::versions::At;
use std::alloc::Global;

/// What the query of a collection asks for.
#[derive(Drop)]
pub struct Collection {
    /// What the objects' labels have to meet.
    pub labels: Selector,
    /// What their fields have to meet.
    pub fields: Fields,
    /// Whether they are listed or watched.
    pub read: CollectionRead,
}

impl Collection {
    ghost use Rattle.std.specs.Prelude.{◌≡◌};
    ghost use Rattle.spec_api.specs.ListQueries.{everything};
    ghost use Rattle.request_parts.specs.Collected.{collection_seen};

    /// Returns all objects, as they are at present.
    pub fn everything(alloc: Global) -> Collection
        ensures { collection_seen result ≡ everything }
    {
        Collection {
            labels: Selector::everything(alloc),
            fields: Fields::everything(alloc),
            read: CollectionRead::List(ListOptions {
                at: At::Present,
                limit: 0,
                after: None,
            }),
        }
    }
}

/// How the objects of a collection are read.
#[derive(Drop)]
pub enum CollectionRead {
    /// They are listed.
    List(ListOptions),
    /// They are watched.
    Watch(WatchOptions),
}

/// Returns the options of the list or the watch that a query asks for.
fn read_options(alloc: Global, query: &[u8]) -> Result<CollectionRead, QueryFault>
    ensures { Gives read_seen (read_by (raw_pairs query.now)) result }
{
    if is_true_value(alloc, query, "watch")? {
        Ok(CollectionRead::Watch(watch_options(alloc, query)?))
    } else if has_any(alloc, query, Names::OfNoList)? {
        Err(QueryFault::BadQuery)
    } else {
        Ok(CollectionRead::List(list_options(alloc, query)?))
    }
}

/// Returns the query of a collection: what stands after the first `?` of its target. Members that are not known say nothing,
/// and of those with one name the first counts. A fault of the page token is told only where all else is understood.
pub fn read_collection(alloc: Global, query: &[u8]) -> Result<Collection, QueryFault>
    ensures { Gives collection_seen (collection_of (raw_pairs query.now)) result }
{
    if has_any(alloc, query, Names::Refused)? {
        return Err(QueryFault::BadQuery);
    }
    let labels = labels(alloc, query)?;
    let fields = fields(alloc, query)?;
    let read = read_options(alloc, query)?;
    Ok(Collection {
        labels,
        fields,
        read,
    })
}
