//! What is told of a server, run after run.
ghost use Rattle.std.specs.Prelude.{◌≡◌, IfOk, vec_len};

use api_notes::{Notes, Trouble};
use keyed_board::Failure;
use object_keys::PerKind;
use request_parts::Request;
use spec_api::kinds::Kind;
use std::alloc::{AllocError, Global};
use std::sync::{Mutex, Wait};

/// Tells notes what it is told, and keeps of each kind what that was last and is not over. It tells while it holds its lock, so notes hear things in
/// the order in which it keeps them: they are not to tell it anything.
#[derive(Drop)]
pub(crate) struct KeptNotes<'a, R, N> {
    rt: &'a R,
    notes: &'a N,
    told: Mutex<PerKind<Option<Trouble>>>,
}

impl<'a, R: Wait, N: Notes> KeptNotes<'a, R, N> {
    /// Returns what has told notes of nothing yet.
    fn new(rt: &'a R, notes: &'a N) -> KeptNotes<'a, R, N> {
        KeptNotes {
            rt,
            notes,
            told: Mutex::new(PerKind::made(|_| None)),
        }
    }

    /// Tells of each kind that what was told of it last is over.
    fn tell_over(&self) {
        let mut told = self.told.lock(self.rt);
        for kind in Kind::ALL {
            let last = *told.get(kind);
            if let Some(trouble) = last {
                told.put(kind, None);
                self.notes.over(kind, trouble);
            }
        }
    }
}

impl<R: Wait, N: Notes> Notes for KeptNotes<'_, R, N> {
    fn trouble(&self, kind: Kind, trouble: Trouble) {
        let mut told = self.told.lock(self.rt);
        told.put(kind, Some(trouble));
        self.notes.trouble(kind, trouble);
    }

    fn over(&self, kind: Kind, trouble: Trouble) {
        let mut told = self.told.lock(self.rt);
        told.put(kind, None);
        self.notes.over(kind, trouble);
    }

    fn refused(&self, request: &Request, code: u16, body: &[u8]) {
        self.notes.refused(request, code, body);
    }

    fn failed(&self, key: &str, failure: Failure) {
        self.notes.failed(key, failure);
    }

    fn recovered(&self, key: &str) {
        self.notes.recovered(key);
    }
}

/// What those tell notes by who ask a server in a run, so that its end can say that it is over: what asks for the next run knows nothing of it. Nobody
/// says so of what another has told. Those who follow kinds share one, as no two follow the same; each worker has its own.
#[derive(Drop)]
pub(crate) struct RunNotes<'a, R, N> {
    pub(crate) following: KeptNotes<'a, R, N>,
    pub(crate) working: Vec<KeptNotes<'a, R, N>>,
}

impl<'a, R: Wait, N: Notes> RunNotes<'a, R, N> {
    /// Returns what so many workers tell notes by, and those who follow kinds, who all have told of nothing yet. The error is running out of memory.
    pub(crate) fn new(
        rt: &'a R,
        alloc: Global,
        notes: &'a N,
        workers: usize,
    ) -> Result<RunNotes<'a, R, N>, AllocError>
        ensures { IfOk result (λ made. vec_len made.working ≡ workers) }
    {
        let mut working = Vec::with_capacity(alloc, workers)?;
        while working.len() < workers {
            working.push(KeptNotes::new(rt, notes))?;
        }
        Ok(RunNotes {
            following: KeptNotes::new(rt, notes),
            working,
        })
    }

    /// Tells that what each has told last is over, as it is once another server answers.
    pub(crate) fn tell_over(&self) {
        self.following.tell_over();
        for worker in &self.working {
            worker.tell_over();
        }
    }
}
