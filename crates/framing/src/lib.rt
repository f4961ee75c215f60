//! The frames of a watch: written as lines, and read from bytes in any pieces.
#![tactic(auto)]

pub mod decoder;
mod frames;
pub mod laws;
pub mod lines;
pub mod scan;
pub mod texts;
mod wants;

pub use decoder::{Decoded, Decoder};
pub use frames::Frame;
use spec_api::frames::FrameKind;
pub use spec_client_go::frame_fault::FrameFault;
pub use texts::{added_text, bookmark_text, error_text, frame_text};
pub use wants::Want;
