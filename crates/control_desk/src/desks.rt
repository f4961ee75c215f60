//! A desk of work.
use crate::entries::WorkEntry;
use crate::states::WorkState;
use crate::work_law::WorkLaw;
use baton::Baton;
use baton::views::PassView;

/// The right to work at a desk. What it has seen of the desk's history, and what it made of it, its calls say.
pub type WorkPass = crossbeam_queue::Pass<WorkState, PassView<WorkState, WorkEntry>>;

/// A board that threads share, and what of each kind is handled: one call at a time has it.
pub struct ControlDesk {
    pub(crate) baton: Baton<WorkState, WorkLaw>,
}

impl Drop for ControlDesk {
    // Called where one is dropped; a derived drop is proved anew at each such place.
    fn drop(self) {
        let ControlDesk { baton: _baton } = self;
    }
}
