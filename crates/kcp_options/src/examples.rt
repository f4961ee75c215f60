//! Words, and the commands that they ask, computed by the checker.
ghost use Rattle.kcp_options.specs.Examples.{CommandsAreNamed, OptionsAreSaid, OptionsStandOnce, NumbersHaveBounds, NumbersAreDigits, ServersAreNamed, WorkersAreCounted, UsagesAreAsked, MistakesAreNamed};

/// What the words after the program's name ask.
pub fn words_ask()
    // A command is named by the first word.
    ensures commands_are_named { CommandsAreNamed }
    // An option that is not given has its default.
    ensures options_are_said { OptionsAreSaid }
    // Each option stands once, with its value.
    ensures options_stand_once { OptionsStandOnce }
    // Each option takes the numbers within its bounds.
    ensures numbers_have_bounds { NumbersHaveBounds }
    // A number is one to nine digits.
    ensures numbers_are_digits { NumbersAreDigits }
    // What works at a server says which.
    ensures servers_are_named { ServersAreNamed }
    // Workers are counted from 1 to 64.
    ensures workers_are_counted { WorkersAreCounted }
    // How the program is used is asked by words that ask no command.
    ensures usages_are_asked { UsagesAreAsked }
    // What is not understood is named by its word.
    ensures mistakes_are_named { MistakesAreNamed }
{}
