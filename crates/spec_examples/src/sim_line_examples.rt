//! Worked facts of the lines that ask for moves, and say how a simulation begins.
ghost use Rattle.spec_examples.specs.SimLineExamples.{MovesAreRead, OthersAreNot, ConfigurationsAreRead};

/// A verb, a kind by its plural name and how much, in one to nine digits, ask for a move.
pub fn moves_are_read()
    ensures { MovesAreRead }
{}

/// A line with another kind, verb, number or space asks for none.
pub fn others_are_not()
    ensures { OthersAreNot }
{}

/// A configuration says both sizes, in their order and within their limits.
pub fn configurations_are_read()
    ensures { ConfigurationsAreRead }
{}
