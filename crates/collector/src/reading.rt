//! What the collector reads live.
ghost use Rattle.std.specs.Prelude.{◌≡◌, IfOk, OnOk, map, option_map};
ghost use Rattle.std.specs.List.{list_any};
ghost use Rattle.spec_api.specs.Keys.{is_same_key};
ghost use Rattle.object_keys.specs.Keys.{key_of};
ghost use Rattle.reconcile_types.specs.Hands.{hand_of, reads_of};
ghost use Rattle.spec_reconcile.specs.GarbageCollection.{owner_keys_if, asks};
ghost use Rattle.collector.specs.Asked.{added, all_added};

use meta::Object;
use object_keys::Key;
use owner_references::references::owner_keys;
use reconcile_types::hands::{is_read, live};
use reconcile_types::{Hand, Read, Seen};
use std::alloc::{AllocError, Global};

/// Returns whether a key is among others.
fn has_key(keys: &[Key], wanted: &Key) -> bool
    ensures { result ≡ list_any (λ k. is_same_key k (key_of wanted.now)) (map key_of keys.now) }
{
    for key in keys {
        if key.cmp(wanted).is_eq() {
            return true;
        }
    }
    false
}

/// Adds a key, unless it was read or is there already.
fn ask(reads: &[Read], key: Key, asked: &mut Vec<Key>) -> Result<(), AllocError>
    ensures { OnOk result (map key_of asked.new.items ≡ added (reads_of reads.now) (map key_of asked.old.items) (key_of key)) }
{
    if !is_read(reads, &key) && !has_key(asked.as_slice(), &key) {
        asked.push(key)?;
    }
    Ok(())
}

/// Adds keys, but those that were read or are there already.
fn ask_all(reads: &[Read], keys: Vec<Key>, asked: &mut Vec<Key>) -> Result<(), AllocError>
    ensures { OnOk result (map key_of asked.new.items
        ≡ all_added (reads_of reads.now) (map key_of asked.old.items) (map key_of keys.items)) }
{
    for key in keys {
        ask(reads, key, asked)?;
    }
    Ok(())
}

/// Returns the keys of the owners of served kinds that an object names, if it is there.
fn owner_keys_if(alloc: Global, object: Option<&Object>) -> Result<Vec<Key>, AllocError>
    ensures { IfOk result (λ v. map key_of v.items ≡ owner_keys_if (option_map (λ o. o.now.value) object.entry)) }
{
    match object {
        Some(object) => owner_keys(alloc, object),
        None => Ok(Vec::new(alloc)),
    }
}

/// Returns the keys that are to be read live still: that of the object, then those of its owners of served kinds, as it
/// names them live. The error is running out of memory.
#[tactic(auto, using(crate::proofs::Unread::asked_are_unread))]
pub fn asks<S: Seen>(alloc: Global, hand: &Hand<S>) -> Result<Vec<Key>, AllocError>
    ensures { IfOk result (λ v. map key_of v.items ≡ asks (hand_of S.snapshot hand.now)) }
{
    let reads = hand.reads.as_slice();
    let mut asked = Vec::new(alloc);
    ask(reads, hand.key.try_copy()?, &mut asked)?;
    let owners = owner_keys_if(alloc, live(reads, &hand.key))?;
    ask_all(reads, owners, &mut asked)?;
    Ok(asked)
}
