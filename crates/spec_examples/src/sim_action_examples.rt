//! Worked facts of the lines that ask workers for actions, and tell what came of these.
ghost use Rattle.spec_examples.specs.SimActionExamples.{ActionsAreRead, OthersAreNot, OutcomesAreTold};

/// An action, the number of a worker and what it is of ask for a step.
pub fn actions_are_read()
    ensures { ActionsAreRead }
{}

/// A line of another form asks for none.
pub fn others_are_not()
    ensures { OthersAreNot }
{}

/// An outcome is told by a word, the number of the worker, and what it did.
pub fn outcomes_are_told()
    ensures { OutcomesAreTold }
{}
