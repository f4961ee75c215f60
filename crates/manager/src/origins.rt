//! Where what is handled comes from.
use list_and_watch::Cause;
use spec_api::kinds::Kind;

/// Where what is handled comes from: of which kind a publish is, at which revision its map is, and why it is given.
#[derive(Clone, Copy, Drop)]
pub struct Origin {
    pub kind: Kind,
    pub revision: u64,
    pub cause: Cause,
}
