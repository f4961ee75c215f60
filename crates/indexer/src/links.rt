//! Which objects name which owners.
ghost use Rattle.std.specs.Prelude.{◌≡◌, IfOk, OnOk, filter_map, map};
ghost use Rattle.std.specs.Map.{keys_of};
ghost use Rattle.object_keys.specs.Keys.{key_of};
ghost use Rattle.spec_api.specs.Metadata.{owners};
ghost use Rattle.indexer.specs.Links.{link_of, link_to, HasLinks, RemovesLinks, Relinks};

use meta::Object;
use object_keys::Key;
use shared_map::SharedMap;
use std::alloc::{AllocError, Global};

/// The uid of an owner, and the key of an object that names it. They go by uid, then key.
#[derive(PartialEq, Eq, PartialOrd, Ord)]
pub struct OwnerLink {
    pub uid: String,
    pub key: Key,
}

impl Drop for OwnerLink {
    // Called where one is dropped; a derived drop is proved anew at each such place.
    fn drop(self) {
        let OwnerLink {
            uid: _uid,
            key: _key,
        } = self;
    }
}

/// Returns a link for each owner that the object under a key names by its uid.
pub fn links_of(alloc: Global, key: &Key, object: &Object) -> Result<Vec<OwnerLink>, AllocError>
    ensures { IfOk result (λ v. map link_of v.items ≡ filter_map (link_to (key_of key.now)) (owners object.now.value)) }
{
    let mut links = Vec::new(alloc);
    for owner in object.owners(alloc)? {
        if let Some(uid) = owner.uid {
            links.push(OwnerLink {
                uid: String::from_str(alloc, uid)?,
                key: key.try_copy()?,
            })?;
        }
    }
    Ok(links)
}

/// Adds links. The error is running out of memory, after which some may be there.
fn add_links(links: &mut SharedMap<OwnerLink, ()>, more: Vec<OwnerLink>) -> Result<(), AllocError>
    ensures { OnOk result (HasLinks (keys_of links.new) (keys_of links.old) more.items) }
{
    for link in more {
        links.insert(link, ())?;
    }
    Ok(())
}

/// Removes links. The error is running out of memory, after which some may be gone.
fn remove_links(links: &mut SharedMap<OwnerLink, ()>, gone: &[OwnerLink]) -> Result<(), AllocError>
    ensures { OnOk result (RemovesLinks (keys_of links.new) (keys_of links.old) gone.now) }
{
    for link in gone {
        links.remove(link)?;
    }
    Ok(())
}

/// Puts more links in the place of those that are gone. The error is running out of memory, after which some may be changed.
pub fn relink(
    links: &mut SharedMap<OwnerLink, ()>,
    gone: &[OwnerLink],
    more: Vec<OwnerLink>,
) -> Result<(), AllocError>
    ensures { OnOk result (Relinks (keys_of links.new) (keys_of links.old) gone.now more.items) }
{
    remove_links(links, gone)?;
    add_links(links, more)?;
    Ok(())
}

/// Returns a copy of links, in which more links stand in the place of those that are gone. It costs a count for each few links.
/// The error is running out of memory.
pub fn relinked(
    links: &SharedMap<OwnerLink, ()>,
    gone: &[OwnerLink],
    more: Vec<OwnerLink>,
) -> Result<SharedMap<OwnerLink, ()>, AllocError>
    ensures { IfOk result (λ m. Relinks (keys_of m) (keys_of links.now) gone.now more.items) }
{
    let mut changed = links.try_copy()?;
    relink(&mut changed, gone, more)?;
    Ok(changed)
}
