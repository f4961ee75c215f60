//! Items of pages, added to a text one after another.
ghost use Rattle.std.specs.Prelude.{◌≡◌, ◌≤◌, ◌++◌, IfNone, IfOk, IfSome, length, max, string_bytes};
ghost use Rattle.server.specs.ListTexts.{items_left, most_ahead, StopsAt};

use object_keys::Key;
use pages::push_item;
use std::alloc::{AllocError, Global};
use store::ViewSnapshot;

/// How long a text may be for one item more to be added to it.
const MOST_AHEAD: usize = 262_144;

/// Where a text stopped among the items of a page: the key of the last object whose item was made, and how many are left.
#[derive(Drop)]
pub(crate) struct ItemsStop {
    pub key: Key,
    pub left: usize,
}

/// Adds the items of the first `left` objects, in their order: the first, and others as long as the text is not too long for one more. Returns
/// where it stopped, before they are all made. The error is running out of memory; some may then have been added.
pub(crate) fn push_some(
    alloc: Global,
    text: &mut String,
    objects: &ViewSnapshot,
    left: usize,
    later: bool,
) -> Result<Option<ItemsStop>, AllocError>
    ensures all { IfOk result (λ stop. IfNone stop
        (string_bytes text.new ≡ string_bytes text.old ++ items_left later left objects.now)) }
    ensures few { IfOk result (λ stop. IfNone stop (length (string_bytes text.new) ≤ max (length (string_bytes text.old)) most_ahead)) }
    ensures some { IfOk result (λ stop. IfSome stop (StopsAt objects.now later left (string_bytes text.old) (string_bytes text.new))) }
{
    let mut members = objects.members(alloc)?;
    let mut left = left;
    let mut later = later;
    while left > 0 {
        let member = match members.take_next() {
            Some(member) => member,
            None => return Ok(None),
        };
        push_item(later, member.object, text)?;
        later = true;
        left -= 1;
        if text.as_str().len() >= MOST_AHEAD {
            return Ok(Some(ItemsStop {
                key: member.key.try_copy()?,
                left,
            }));
        }
    }
    Ok(None)
}
