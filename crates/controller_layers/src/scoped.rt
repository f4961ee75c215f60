//! A controller that is told of what it watches alone.
ghost use Rattle.std.specs.Prelude.{◌≡◌, ◌==◌, ◌++◌, ◌∷◌, [], IfOk, IfErr, OnOk, length, filter, map, option_map};
ghost use Rattle.std.specs.List.{list_any};
ghost use Rattle.spec_api.specs.Kinds.{rank};
ghost use Rattle.indexer.specs.Shifted.{shift_of};
ghost use Rattle.object_keys.specs.Keys.{key_of};
ghost use Rattle.selector.specs.Views.{view_of};
ghost use Rattle.controller_watches.specs.Joint.{is_of};
ghost use Rattle.controller_watches.specs.Watched.{RefusesScopes};
ghost use Rattle.controller_layers.specs.Within.{has_object, is_within, shared_views, shares_kind, touches};

use api_client::Api;
use controller_watches::{Watch, is_in_view};
use indexer::{Indexed, Shift};
use keyed_queues::Named;
use object_keys::{Key, PerKind};
use reconciler::{Outcome, Reconciler};
use reflector::SharedObject;
use request_encoding::ScopeFault;
use selector::View;
use spec_api::kinds::Kind;
use std::alloc::{AllocError, Global};

/// A controller of which several watches may name one kind. A change of such a kind is handed to it only where one of them holds the object before or
/// after it; of another kind each is. What it is shown is all that is followed.
#[derive(Drop)]
pub struct Scoped<'a, C> {
    controller: &'a C,
    /// What the watches ask for whose kind others name too.
    views: Vec<View>,
}

/// Returns how many watches name a kind.
fn times_watched(watches: &[Watch<'_>], kind: Kind) -> usize
    ensures { result ≡ length (filter (is_of kind) watches.now) }
{
    watches.iter().filter(|watch| watch.kind == kind).count()
}

/// Returns whether several watches name the kind of this one.
fn shares_kind(watches: &[Watch<'_>], watch: &Watch<'_>) -> bool
    ensures { result ≡ shares_kind watches.now watch.now }
{
    1 < times_watched(watches, watch.kind)
}

/// Adds a view. The error is running out of memory.
fn push_view(made: &mut Vec<View>, view: View) -> Result<(), AllocError>
    ensures { OnOk result (made.new.items ≡ made.old.items ++ view ∷ []) }
{
    made.push(view)?;
    Ok(())
}

/// Returns what those watches ask for whose kind others name too. The errors are those of `Watch::view`.
fn shared_views(alloc: Global, watches: &[Watch<'_>]) -> Result<Vec<View>, ScopeFault>
    ensures views { IfOk result (λ made. map view_of made.items ≡ shared_views watches.now) }
    ensures refused { IfErr result (RefusesScopes watches.now) }
{
    let mut made = Vec::new(alloc);
    for watch in watches {
        if shares_kind(watches, watch) {
            push_view(&mut made, watch.view(alloc)?)?;
        }
    }
    Ok(made)
}

/// Returns whether a view asks for an object under a key, if there is one.
fn has_object(view: &View, key: &Key, object: &Option<SharedObject>) -> bool
    ensures { result ≡ has_object (view_of view.now) (key_of key.now) (option_map (λ o. o.value) object.now) }
{
    match object {
        Some(object) => is_in_view(view, key, object.object()),
        None => false,
    }
}

/// Returns whether what was there before a change, or is there after it, is in a view.
fn touches(change: &Shift, view: &View) -> bool
    ensures { result ≡ touches (shift_of change.now) (view_of view.now) }
{
    has_object(view, &change.key, &change.old) || has_object(view, &change.key, &change.new)
}

/// Returns whether one of some views is of a kind.
fn any_is_of(views: &[View], kind: Kind) -> bool
    ensures { result ≡ list_any (λ v. rank v.kind == rank kind) views.now }
{
    for view in views {
        if view.kind == kind {
            return true;
        }
    }
    false
}

/// The same, of what the views say.
fn names_kind(views: &[View], kind: Kind) -> bool
    ensures { result ≡ list_any (λ v. rank v.kind == rank kind) (map view_of views.now) }
{
    any_is_of(views, kind)
}

/// Returns whether a change touches one of some views.
fn any_is_touched(views: &[View], change: &Shift) -> bool
    ensures { result ≡ list_any (λ v. touches (shift_of change.now) (view_of v)) views.now }
{
    for view in views {
        if touches(change, view) {
            return true;
        }
    }
    false
}

/// The same, of what the views say.
fn touches_any(views: &[View], change: &Shift) -> bool
    ensures { result ≡ list_any (touches (shift_of change.now)) (map view_of views.now) }
{
    any_is_touched(views, change)
}

/// Returns whether a change is handed on, by the views of the watches whose kind others name too.
fn is_within(views: &[View], change: &Shift) -> bool
    ensures { result ≡ is_within (map view_of views.now) (shift_of change.now) }
{
    !names_kind(views, change.key.kind) || touches_any(views, change)
}

impl<'a, C> Scoped<'a, C> {
    ghost use Rattle.std.specs.Prelude.{◌≡◌, IfOk, IfErr};
    ghost use Rattle.controller_layers.specs.Scoped.{views_in};
    ghost use Rattle.controller_layers.specs.Within.{shared_views, OwesWithin};

    /// Returns a controller that is told of what these watches hold. The errors are those of `Watch::view`.
    pub fn new(
        alloc: Global,
        controller: &'a C,
        watches: &[Watch<'_>],
    ) -> Result<Scoped<'a, C>, ScopeFault>
        ensures views { IfOk result (λ made. views_in made ≡ shared_views watches.now) }
        ensures refused { IfErr result (RefusesScopes watches.now) }
    {
        Ok(Scoped {
            controller,
            views: shared_views(alloc, watches)?,
        })
    }

    /// Returns the keys that a change owes: none where it is not handed on, else those that the controller says. The error is running out of memory.
    pub fn keys_within<K: Named>(
        &self,
        alloc: Global,
        change: &Shift,
        shown: &PerKind<Indexed>,
    ) -> Result<Vec<K>, AllocError>
    where
        C: Reconciler<K>,
        ensures { IfOk result (λ keys. OwesWithin (views_in self.now) (C.owes shown.now) (shift_of change.now) keys.items) }
    {
        if !is_within(&self.views, change) {
            return Ok(Vec::new(alloc));
        }
        self.controller.keys_of(alloc, change, shown)
    }
}

impl<K: Named, C: Reconciler<K>> Reconciler<K> for Scoped<'_, C> {
    ghost use Rattle.std.specs.Prelude.{◌≡◌, ◌⊎◌, []};

    ghost owes = { λ shown change keys. (keys ≡ []) ⊎ C.owes shown change keys };

    ghost ends = { C.ends };

    ghost says_acts = { C.says_acts };

    ghost acts = { C.acts };

    /// Returns the keys that a change owes, as `keys_within` says.
    fn keys_of(
        &self,
        alloc: Global,
        change: &Shift,
        shown: &PerKind<Indexed>,
    ) -> Result<Vec<K>, AllocError> {
        self.keys_within(alloc, change, shown)
    }

    fn reconcile<A: Api>(
        &self,
        alloc: Global,
        key: &K,
        shown: &PerKind<Indexed>,
        api: &mut A,
    ) -> Outcome {
        self.controller.reconcile(alloc, key, shown, api)
    }
}
