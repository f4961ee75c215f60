//! The lines with which a watch begins.
ghost use Rattle.std.specs.Prelude.{◌≡◌, IfOk};
ghost use Rattle.spec_api.specs.Replies.{shown};
ghost use Rattle.spec_api.specs.WatchReplies.{opening_lines};
ghost use Rattle.spec_line_protocol.specs.Lines.{reply_text};

use line_service::lines::opening_lines;
use server::InitialEvents;
use spec_api::kinds::Kind;
use std::alloc::{AllocError, Global};

/// Returns the lines of a watch that begins with initial events and, if bookmarks are shown, the one that closes them. The error is
/// running out of memory.
pub(crate) fn stream_opening(
    alloc: Global,
    kind: Kind,
    bookmarks: bool,
    initial: &InitialEvents,
) -> Result<Vec<u8>, AllocError>
    ensures { IfOk result (λ l. l.items
        ≡ reply_text (shown kind (opening_lines bookmarks initial.now.revision initial.now.objects))) }
{
    let members = initial.objects.all(alloc)?;
    opening_lines(alloc, kind, bookmarks, &members, initial.revision)
}
