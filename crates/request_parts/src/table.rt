//! The table of routes.
ghost use Rattle.std.specs.Prelude.{◌≡◌, true, OnOk};
ghost use Rattle.request_parts.specs.Table.{table, route_text, with_entry, with_group, before, is_free};

use crate::entries::{Layout, RouteEntry};
use crate::targets::{Target, assemble};
use matchit::{InsertError, Router};
use spec_api::kinds::Group;
use std::alloc::{AllocError, Global};

/// The routes that are served, in a table that is made once.
pub struct Routes {
    router: Router<RouteEntry>,
    ghost whole: { router ≡ table },
}

impl Drop for Routes {
    // Called where one is dropped; a derived drop is proved anew at each such place.
    fn drop(self) {
        let Routes { router: _router } = self;
    }
}

/// Adds the route of an entry, with which no other conflicts.
fn insert(router: &mut Router<RouteEntry>, group: Group, layout: Layout) -> Result<(), AllocError>
    requires { is_free (route_text group layout) router.old ≡ true }
    ensures { OnOk result (router.new ≡ with_entry group layout router.old) }
{
    let entry = RouteEntry { group, layout };
    match router.insert(entry.path(), entry) {
        Ok(()) => Ok(()),
        Err(InsertError::OutOfMemory) => Err(AllocError),
        Err(_) => unreachable!(),
    }
}

/// Adds the routes of a group.
fn insert_group(router: &mut Router<RouteEntry>, group: Group) -> Result<(), AllocError>
    requires { router.old ≡ before group }
    ensures { OnOk result (router.new ≡ with_group group router.old) }
{
    insert(router, group, Layout::All)?;
    insert(router, group, Layout::Namespace)?;
    insert(router, group, Layout::Object)?;
    insert(router, group, Layout::Status)
}

impl Routes {
    ghost use Rattle.std.specs.Prelude.{◌≡◌, option_map};
    ghost use Rattle.spec_api.specs.Targets.{route};
    ghost use Rattle.request_parts.specs.RoutesSeen.{route_seen};

    /// Returns the table. It fails only where memory runs out.
    pub fn new(alloc: Global) -> Result<Routes, AllocError> {
        let mut router = Router::new(alloc);
        insert_group(&mut router, Group::Core)?;
        insert_group(&mut router, Group::Apps)?;
        Ok(Routes { router })
    }

    /// Returns what a path names; nothing, where it has no route. No part of the path is decoded, and the namespace may be any
    /// text: see `Target::names_namespace`.
    pub fn read<'p>(&self, path: &'p str) -> Option<Target<'p>>
        ensures { option_map route_seen result ≡ route path.now }
    {
        let Ok(found) = self.router.at(path) else {
            return None;
        };
        let resource = found.params.get("resource");
        let namespace = found.params.get("namespace");
        let name = found.params.get("name");
        assemble(*found.value, resource, namespace, name)
    }
}
