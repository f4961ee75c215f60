//! Worked facts of runs whose followers begin with streams of initial events.
ghost use Rattle.spec_examples.specs.SimStreamExamples.{StreamsAreClosed, CutStreamsBeginAgain, InitialLinesAreSent};

/// Nothing is taken in of a stream until the bookmark that closes its initial events, and then all that is there.
pub fn streams_are_closed()
    ensures { StreamsAreClosed }
{}

/// A stream that is cut before it was closed begins again from its start, and so does what follows after a restart.
pub fn cut_streams_begin_again()
    ensures { CutStreamsBeginAgain }
{}

/// Initial lines are written whatever has happened since, alone, and a window that has moved on is told after them.
pub fn initial_lines_are_sent()
    ensures { InitialLinesAreSent }
{}
