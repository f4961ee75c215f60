//! Laws of replays.
ghost use Rattle.kcp_lines.specs.Replays.{RepliesAreReplays};

/// Where no line is refused for want of memory, what is written for all lines is what the definitions say of all that is read.
pub fn replies_are_replays()
    ensures { RepliesAreReplays }
{}
