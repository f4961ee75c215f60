//! What wakes the watches of all threads.
use desk::Listener;
use spec_api::kinds::Kind;
use std::sync::Wait;
use wakeups::Bell;

/// Wakes the watches of all threads at each write.
#[derive(Drop)]
pub struct BellRinger<'a> {
    pub bell: &'a Bell,
}

impl Listener for BellRinger<'_> {
    ghost Hears = { λ kind before after. Unit {0} };

    fn wrote<R: Wait>(&mut self, _rt: &R, _kind: Kind) {
        self.bell.ring();
    }
}
