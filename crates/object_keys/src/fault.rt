//! Why a request is not done.
ghost use Rattle.std.specs.Prelude.{◌≡◌};
ghost use Rattle.object_keys.specs.declared.fault.Fault.TheVariants.{NoMemory};

use crate::key::Key;
use spec_api::refusals::{Field, Mismatch, Part};
use std::alloc::{AllocError, AllocFailed};
use thiserror::Error;

/// Why a request is not done.
#[derive(Debug, Drop, Error)]
pub enum Fault {
    /// A part of the request cannot be read.
    #[error("a part of the request cannot be read")]
    BadRequest(Part),
    /// No object is under the key.
    #[error("no object is under the key")]
    NotFound(Key),
    /// The path names nothing that is served.
    #[error("the path names nothing that is served")]
    NoSuchPath,
    /// The path does not serve the method.
    #[error("the path does not serve the method")]
    MethodNotAllowed,
    /// An object is under the key already.
    #[error("an object is under the key already")]
    AlreadyExists(Key),
    /// The object under the key is not the one that the request named.
    #[error("the object under the key is not the one that was named")]
    Conflict(Key, Mismatch),
    /// The revision asked for is below the floor, the least that is still served.
    #[error("revision {asked} is expired: the least that is served is {floor}")]
    Expired { asked: u64, floor: u64 },
    /// The request does not say how long its body is.
    #[error("the length of the body is not said")]
    LengthRequired,
    /// The body, or the object to be stored, is longer than it may be.
    #[error("the body is too large")]
    TooLarge,
    /// The body is of a media type that is not read.
    #[error("the media type of the body is not read")]
    UnsupportedMediaType,
    /// A field of the object is not valid.
    #[error("a field of the object is not valid")]
    Invalid(Key, Field),
    /// Memory was wanted and refused.
    #[error("out of memory")]
    NoMemory,
    /// The revision asked for is above the present one.
    #[error("revision {asked} is above the present one, {present}")]
    TooNew { asked: u64, present: u64 },
    /// There are as many objects as there may be, or the greatest revision is reached.
    #[error("there is no room for another object or revision")]
    StorageFull,
}

impl From<AllocError> for Fault {
    ghost from_gives = { λ _ e. e ≡ NoMemory };

    fn from(_: AllocError) -> Fault {
        Fault::NoMemory
    }
}

impl<T: Drop> From<AllocFailed<T>> for Fault {
    ghost from_gives = { λ _ e. e ≡ NoMemory };

    fn from(_: AllocFailed<T>) -> Fault {
        Fault::NoMemory
    }
}
