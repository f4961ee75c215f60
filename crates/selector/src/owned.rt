//! Keys and values of labels, as texts of their own.
ghost use Rattle.std.specs.Prelude.{◌≡◌, string_bytes};
ghost use Rattle.spec_api.specs.Selectors.{label_key, label_value};
ghost use Rattle.selector.specs.Seen.{Reads};

use crate::faults::PartFault;
use metadata_values::{is_label_key, is_label_value};
use std::alloc::Global;

/// Returns the bytes as a text, where a label can have them as its key.
pub(crate) fn own_key(alloc: Global, bytes: &[u8]) -> Result<String, PartFault>
    ensures { Reads string_bytes result (label_key bytes.now) }
{
    match str::from_utf8(bytes) {
        Ok(text) => {
            if !is_label_key(text) {
                return Err(PartFault::Refused);
            }
            Ok(String::from_str(alloc, text)?)
        }
        Err(_) => Err(PartFault::Refused),
    }
}

/// Returns the bytes as a text, where a label can have them as its value.
pub(crate) fn own_value(alloc: Global, bytes: &[u8]) -> Result<String, PartFault>
    ensures { Reads string_bytes result (label_value bytes.now) }
{
    match str::from_utf8(bytes) {
        Ok(text) => {
            if !is_label_value(text) {
                return Err(PartFault::Refused);
            }
            Ok(String::from_str(alloc, text)?)
        }
        Err(_) => Err(PartFault::Refused),
    }
}
