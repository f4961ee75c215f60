//! What a controller's author may rely on, whatever calls are made of a work queue, in whatever order.
ghost use Rattle.spec_laws.specs.WorkQueueLaws.{QueuesOnce, HandsApart, NothingIsLost, QueuedIsDirty, AddedIsServed, ShutAddsNothing};

/// A key stands in the queue at most once, however often it was added.
pub fn queues_once()
    ensures { QueuesOnce }
{}

/// The key that is handed out is not being processed: none is handed out twice before a `done` of it, so as long as only the
/// worker that has a key calls `done` with it, no key is in two workers' hands.
pub fn hands_apart()
    ensures { HandsApart }
{}

/// A key that was added and not handed out since is in the queue, or its worker's `done` puts it there.
pub fn nothing_is_lost()
    ensures { NothingIsLost }
{}

/// Only keys that were added, and not handed out since, wait in the queue.
pub fn queued_is_dirty()
    ensures { QueuedIsDirty }
{}

/// A key that was added before the shut-down still wants a look, or was handed out after it was added.
pub fn added_is_served()
    ensures { AddedIsServed }
{}

/// After the shut-down only keys that wanted a look then are handed out.
pub fn shut_adds_nothing()
    ensures { ShutAddsNothing }
{}
