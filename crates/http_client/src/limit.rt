//! How much of a body is taken in.

/// The greatest length of a body, in bytes, for who has no other wish: 64 MiB, many times what one object may have.
pub const LARGEST_BODY: u32 = 67_108_864;
