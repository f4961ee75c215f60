//! Where a reader stands in a body.

/// Where a reader stands in a body in chunks.
#[derive(Clone, Copy)]
pub enum BodyPlace {
    /// At the line before a chunk.
    Line,
    /// At this many bytes of a chunk, and the end of a line after them.
    Within(u64),
    /// Behind the body.
    Ended,
}
