//! The threads of a manager.
use crate::reflecting::Reflecting;
use crate::ticking::Ticker;
use api_client::Api;
use informer::Listers;
use manager_worker::{Gate, Worker};
use std::sync::Wait;
use std::time::Clock;

/// What one thread of a manager does.
#[derive(Drop)]
pub enum ManagerThread<'a, R: Wait, A: Drop, G> {
    /// It follows a kind.
    Follows(Reflecting<'a, R, A>),
    /// It takes one key after another.
    Works(Worker<'a, R, Listers, A, G>),
    /// It lets time pass.
    Ticks(Ticker<'a, R>),
}

impl<R: Wait + Clock, A: Api + Drop, G: Gate> ManagerThread<'_, R, A, G> {
    /// Does its work until all is to stop.
    pub fn run(&mut self) {
        match self {
            ManagerThread::Follows(reflecting) => reflecting.run(),
            ManagerThread::Works(worker) => worker.work(),
            ManagerThread::Ticks(ticker) => ticker.run(),
        }
    }
}
