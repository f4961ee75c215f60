//! A line without the queue's rules, to compare with.
use crate::waiting_line::WaitingLine;
use object_keys::WorkKey;
use std::alloc::{AllocError, Global};
use std::collections::{BTreeSet, VecDeque};

/// Keys in the order in which they came, and the set of those that are not done.
#[derive(Drop)]
pub struct Plain {
    waiting: VecDeque<WorkKey>,
    open: BTreeSet<WorkKey>,
}

impl Plain {
    /// Returns an empty line.
    pub fn new(alloc: Global) -> Plain {
        Plain {
            waiting: VecDeque::new(alloc),
            open: BTreeSet::new(alloc),
        }
    }
}

impl WaitingLine for Plain {
    fn add(&mut self, key: WorkKey) -> Result<(), AllocError> {
        self.open.insert(key.try_copy()?)?;
        self.waiting.push_back(key)?;
        Ok(())
    }

    fn get(&mut self) -> Result<Option<WorkKey>, AllocError> {
        Ok(self.waiting.pop_front())
    }

    fn done(&mut self, key: &WorkKey) {
        self.open.remove(key);
    }
}
