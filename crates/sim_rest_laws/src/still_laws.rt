//! What laws of plans are given of last turns.
ghost use Rattle.sim_rest_laws.specs.StillLaws.{LastTurnsAreStill};

/// At rest, what was published since the take of a key's last turn leads to what is there by changes that owed the key nothing, and
/// each look in the turn is one of that.
pub fn last_turns_are_still()
    ensures { LastTurnsAreStill }
{}
