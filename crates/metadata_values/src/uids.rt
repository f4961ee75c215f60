//! The uid of an object, by its cluster and the revision at which it was created.
ghost use Rattle.std.specs.Prelude.{◌≡◌, ◌<◌, ◌^◌, IfOk, string_bytes};
ghost use Rattle.spec_api.specs.Uids.{uid_text};

use std::alloc::{AllocError, Global};
use uuid::Uuid;

/// The version 8 and twelve bits 0, below the 48 bits of the cluster's word.
const VERSION: u64 = 0x8000;

/// The variant 10, above the 62 bits of the revision.
const VARIANT: u64 = 0x8000_0000_0000_0000;

/// Returns the uid of the object that a cluster created at a revision: a UUID of version 8, hyphenated and in lower case.
pub fn uid_text(alloc: Global, cluster: u64, revision: u64) -> Result<String, AllocError>
    requires cluster { cluster < 2 ^ 48 }
    requires revision { revision < 2 ^ 62 }
    ensures { IfOk result (λ text. string_bytes text ≡ uid_text cluster revision) }
{
    let uid = Uuid::from_u64_pair(cluster * 0x1_0000 + VERSION, VARIANT + revision);
    let mut buffer = Uuid::encode_buffer();
    let text = uid.hyphenated().encode_lower(&mut buffer);
    String::from_str(alloc, text)
}
