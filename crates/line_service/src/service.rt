//! What answers lines.
ghost use Rattle.std.specs.Prelude.{◌≡◌, IfOk, OnOk, OnErr, List, ℕ, Option, option_map};

use std::alloc::{AllocError, Global};

/// A state that answers one line after another.
pub trait LineService {
    /// The text that is written for a line.
    ghost reply: { Self → List ℕ → List ℕ };

    /// The state after a line.
    ghost next: { Self → List ℕ → Self };

    /// The text that is written for a line for which there was no memory, if lines go on after it.
    ghost refusal: { List ℕ → Option (List ℕ) };

    /// Answers a line, which comes without its newline. An error changes nothing.
    fn serve(&mut self, alloc: Global, line: &[u8]) -> Result<Vec<u8>, AllocError>
        ensures text { IfOk result (λ text. text.items ≡ reply self.old line.now) }
        ensures state { OnOk result (self.new ≡ next self.old line.now) }
        ensures err { OnErr result (self.new ≡ self.old) };

    /// Returns what is written for a line for which there was no memory, or none where no line is answered after it. It takes no memory.
    fn refused(&self, line: &[u8]) -> Option<&'static [u8]>
        ensures { option_map (λ text. text.now) result ≡ refusal line.now };
}
