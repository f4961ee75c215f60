//! Laws of answers.
ghost use Rattle.spec_laws.specs.AnswerLaws.{AnswersAreReadBack};

/// Whoever asked before, the text of what is answered to a request of one object is read as that answer.
pub fn answers_are_read_back()
    ensures { AnswersAreReadBack }
{}
