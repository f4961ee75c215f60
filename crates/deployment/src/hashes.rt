//! The hash of a template.
ghost use Rattle.std.specs.Prelude.{◌≡◌, ◌++◌, IfOk, string_bytes};
ghost use Rattle.serde_json.specs.Written.{compact_text};
ghost use Rattle.spec_reconcile.specs.Templates.{collision_digits, template_hash};

use meta::Object;
use sha2::{Digest, Sha256};
use std::alloc::{AllocError, Global};

/// Two digits of the hash stand for each of these bytes.
const HASHED_BYTES: usize = 5;

/// Returns the text of which the hash is made.
fn hashed_text(alloc: Global, template: &Object, collisions: u64) -> Result<String, AllocError>
    ensures { IfOk result (λ s. string_bytes s ≡ compact_text template.now.value ++ collision_digits collisions) }
{
    let mut text = template.text(alloc)?;
    if collisions > 0 {
        let digits = format!(in alloc; "{collisions}")?;
        text.push_str(&digits)?;
    }
    Ok(text)
}

/// Returns the hash of a template whose name was taken so often. The error is running out of memory.
pub(crate) fn template_hash(
    alloc: Global,
    template: &Object,
    collisions: u64,
) -> Result<String, AllocError>
    ensures { IfOk result (λ s. string_bytes s ≡ template_hash template.now.value collisions) }
{
    let text = hashed_text(alloc, template, collisions)?;
    let digest = Sha256::digest(text.as_bytes());
    let (first, _) = digest.split_at(HASHED_BYTES);
    Ok(hex::encode(alloc, first)?)
}
