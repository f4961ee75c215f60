//! The recorded changes above a revision, found by halving.
ghost use Rattle.std.specs.Prelude.{◌≡◌, ◌<◌, ◌≤◌, ◌+◌, ◌++◌, IfOk, OnOk, IfSome, length, map, take, drop, nat_lt, slice_get};
ghost use Rattle.spec_api.specs.Windows.{IsRising};
ghost use Rattle.spec_server.specs.Recorded.{above, event_recorded, events_recorded};
ghost use Rattle.selector.specs.Views.{view_of};
ghost use Rattle.revisions.specs.Events.{event_seen};
ghost use Rattle.watch_cache.specs.Changes.{change_seen};

use crate::changes::Change;
use circular_buffer::HeapCircularBuffer;
use revisions::Event;
use revisions::making::{push_change, shown};
use selector::View;
use std::alloc::{AllocError, Global};

/// Returns the place of the first change with a revision above `after`; where there is none, the place behind the last.
pub(crate) fn first_above(changes: &HeapCircularBuffer<Change>, after: u64) -> usize
    requires { IsRising 0 (map change_seen changes.now.items) }
    ensures first { drop result (map change_seen changes.now.items) ≡ above after (map change_seen changes.now.items) }
    ensures bound { result ≤ length changes.now.items }
{
    let mut low = 0;
    let mut high = changes.len();
    while low < high {
        let middle = low + (high - low) / 2;
        if is_above(changes, middle, after) {
            high = middle;
        } else {
            low = middle + 1;
        }
    }
    low
}

/// Returns whether the change at a place has a revision above `after`.
fn is_above(changes: &HeapCircularBuffer<Change>, place: usize, after: u64) -> bool
    requires { place < length changes.now.items }
    ensures { IfSome (slice_get changes.now.items place) (λ c. result ≡ nat_lt after c.revision) }
{
    match changes.get(place) {
        Some(change) => after < change.revision,
        None => false,
    }
}

/// Returns the first events of a view after a revision, at most as many as are asked for.
pub(crate) fn events_above(
    alloc: Global,
    changes: &HeapCircularBuffer<Change>,
    view: &View,
    after: u64,
    max: usize,
) -> Result<Vec<Event>, AllocError>
    requires { IsRising 0 (map change_seen changes.now.items) }
    ensures { IfOk result (λ es. map event_seen es.items
        ≡ take max (events_recorded (view_of view.now) (above after (map change_seen changes.now.items)))) }
{
    let start = first_above(changes, after);
    let mut events = Vec::new(alloc);
    for place in start..changes.len() {
        if events.len() >= max {
            return Ok(events);
        }
        push_at(alloc, &mut events, view, changes, place)?;
    }
    Ok(events)
}

/// Adds the event, if there is one, of the change at a place: what the changes from there have before those that follow.
fn push_at(
    alloc: Global,
    events: &mut Vec<Event>,
    view: &View,
    changes: &HeapCircularBuffer<Change>,
    place: usize,
) -> Result<(), AllocError>
    requires { place < length changes.now.items }
    ensures event { OnOk result (map event_seen events.new.items
        ++ events_recorded (view_of view.now) (drop (place + 1) (map change_seen changes.now.items))
        ≡ map event_seen events.old.items ++ events_recorded (view_of view.now) (drop place (map change_seen changes.now.items))) }
    ensures one { OnOk result (length events.new.items ≤ length events.old.items + 1) }
{
    match changes.get(place) {
        Some(change) => push_event(alloc, events, view, change),
        None => Ok(()),
    }
}

/// Adds the event, if there is one, of a change.
fn push_event(
    alloc: Global,
    events: &mut Vec<Event>,
    view: &View,
    change: &Change,
) -> Result<(), AllocError>
    ensures { OnOk result (map event_seen events.new.items
        ≡ map event_seen events.old.items ++ event_recorded (view_of view.now) (change_seen change.now)) }
{
    let key = &change.key;
    let old = shown(view, key, change.old.as_ref());
    let new = shown(view, key, change.new.as_ref());
    push_change(alloc, events, change.revision, key, old, new)
}
