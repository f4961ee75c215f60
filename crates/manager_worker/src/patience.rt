//! For how long a server asks to be left alone.
ghost use Rattle.std.specs.Prelude.{◌≡◌, max};
ghost use Rattle.http_client.specs.Waits.{milliseconds_asked};

use http_client::{Answer, milliseconds_asked};

/// Notes for how many milliseconds a server asks to be left alone by its answer, where that is longer than what was noted.
pub(crate) fn note(patience: &mut u32, answer: &Answer)
    ensures { patience.new ≡ max patience.old (milliseconds_asked answer.now) }
{
    *patience = (*patience).max(milliseconds_asked(answer));
}
