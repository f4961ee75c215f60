//! Frames that were read.

use serde_json::Value;
use spec_api::frames::FrameKind;

/// A frame that was read: its type and its object.
#[derive(Drop)]
pub struct Frame {
    pub kind: FrameKind,
    /// A JSON object.
    pub object: Value,
}
