//! The work queue of controllers: that of keys of any type, at work keys.
ghost use Rattle.std.specs.Prelude.{◌≡◌, IfOk, OnOk, OnErr, length, map, option_map};
ghost use Rattle.spec_client_go.specs.WorkQueues.{WorkQueue, idle, added, add, got, handed, done, shut, after_all};
ghost use Rattle.object_keys.specs.WorkKeys.{work_key_of};

use keyed_queues::KeyedQueue;
use object_keys::WorkKey;
use std::alloc::{AllocError, Global};
use std::marker::Model;

/// The work keys that wait, first come first; those that are to be processed; those in workers' hands.
#[derive(Drop)]
pub struct Queue {
    keys: KeyedQueue<WorkKey>,
}

impl Model for Queue {
    ghost use Rattle.spec_client_go.specs.WorkQueues.{WorkQueue};
    ghost use Rattle.spec_client_go.specs.Codes.{coded_work_queue};

    ghost Value = { WorkQueue };

    ghost coded = { coded_work_queue };

    ghost use Rattle.workqueue.specs.Seen.{work_of};

    ghost view = { λ q. work_of q.keys };
}

impl Queue {
    /// Returns an empty queue.
    pub fn new(alloc: Global) -> Queue
        ensures { result ≡ idle }
    {
        Queue {
            keys: KeyedQueue::new(alloc),
        }
    }

    /// Adds a key: it waits once, however often it is added, and a key in a worker's hands waits for its `done`.
    pub fn add(&mut self, key: WorkKey) -> Result<(), AllocError>
        ensures ok { OnOk result (self.new ≡ added (work_key_of key) self.old) }
        ensures err { OnErr result (self.new ≡ self.old) }
    {
        self.keys.add(key)
    }

    /// Adds keys one after another, as `add` does. The error is running out of memory, and then none was added.
    pub fn add_all(&mut self, keys: &[WorkKey]) -> Result<(), AllocError>
        ensures ok { OnOk result (self.new ≡ after_all self.old (map add (map work_key_of keys.now))) }
        ensures err { OnErr result (self.new ≡ self.old) }
    {
        self.keys.add_all(keys)
    }

    /// Returns the key that waits longest, if one waits. It takes no memory.
    pub fn first(&self) -> Option<&WorkKey>
        ensures { option_map (λ k. work_key_of k.now) result ≡ handed self.now }
    {
        self.keys.first()
    }

    /// Removes the key that waits longest, if one waits, and hands it to a worker.
    pub fn get(&mut self) -> Result<Option<WorkKey>, AllocError>
        ensures ok { OnOk result (self.new ≡ got self.old) }
        ensures handed { IfOk result (λ k. option_map work_key_of k ≡ handed self.old) }
        ensures err { OnErr result (self.new ≡ self.old) }
    {
        self.keys.get()
    }

    /// Takes a key back from its worker. It waits again if it was added meanwhile.
    pub fn done(&mut self, key: &WorkKey)
        ensures { self.new ≡ done (work_key_of key.now) self.old }
    {
        self.keys.done(key);
    }

    /// Shuts the queue: from now on nothing is added; what waits is still handed out.
    pub fn shut_down(&mut self)
        ensures { self.new ≡ shut self.old }
    {
        self.keys.shut_down();
    }

    /// Returns how many keys wait.
    pub fn len(&self) -> usize
        ensures { result ≡ length self.now.queue }
    {
        self.keys.len()
    }
}
