//! Laws of the last turn of each key, where all is at rest.
ghost use Rattle.sim_rest_laws.specs.LastTurnLaws.{OwedKeysHadTheirTurn, LastTurnsAreSettled};

/// At rest each change that was published since the last restart was handled, and each key that it then owed was taken after that for
/// the last time: all that was looked at, read and issued in that turn came after its take, and its whole plan was issued and accepted.
pub fn owed_keys_had_their_turn()
    ensures { OwedKeysHadTheirTurn }
{}

/// At rest, since the take of a key's last turn, what was published at any point differs from what is there by changes that were
/// handled later and owed the key nothing.
pub fn last_turns_are_settled()
    ensures { LastTurnsAreSettled }
{}
