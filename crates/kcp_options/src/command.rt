//! The commands of the program.
ghost use Rattle.std.specs.Prelude.{◌≡◌, map, string_bytes};

use crate::all_options::AllOptions;
use crate::control_options::ControlOptions;
use crate::serve_options::ServeOptions;
use crate::setting::Setting;
use crate::words::are_options;

/// What the program is asked.
#[derive(Clone, Copy)]
pub enum Subcommand {
    /// Request lines are answered.
    Replay,
    /// The steps of a simulated cluster are taken.
    Simulate,
    /// Connections are served.
    Serve(ServeOptions),
    /// The controllers work at a server.
    Control(ControlOptions),
    /// Connections are served, and the controllers work at what they ask.
    All(AllOptions),
}

/// The options of `kcp serve`.
pub(crate) const SERVE_SETTINGS: [Setting; 4] = [
    Setting::Port,
    Setting::Window,
    Setting::Threads,
    Setting::Requests,
];

/// The options of `kcp control`.
pub(crate) const CONTROL_SETTINGS: [Setting; 3] = [
    Setting::Server,
    Setting::Workers,
    Setting::Turns,
];

/// The options of `kcp all`.
pub(crate) const ALL_SETTINGS: [Setting; 4] = [
    Setting::Port,
    Setting::Window,
    Setting::Threads,
    Setting::Workers,
];

impl Subcommand {
    ghost use Rattle.std.specs.Prelude.{◌≡◌, map, string_bytes};
    ghost use Rattle.kcp_options.specs.Options.{command};

    /// Returns the command that the words after the program's name ask; none where they are bad arguments.
    pub fn parse(words: &[String]) -> Option<Subcommand>
        ensures { result ≡ command (map string_bytes words.now) }
    {
        let (word, rest) = words.split_first()?;
        if word.as_str() == "replay" && rest.is_empty() {
            return Some(Subcommand::Replay);
        }
        if word.as_str() == "simulate" && rest.is_empty() {
            return Some(Subcommand::Simulate);
        }
        if word.as_str() == "serve" && are_options(&SERVE_SETTINGS, rest) {
            return Some(Subcommand::Serve(ServeOptions::of_words(rest)));
        }
        if word.as_str() == "control" && are_options(&CONTROL_SETTINGS, rest) {
            return Some(Subcommand::Control(ControlOptions::of_words(rest)?));
        }
        if word.as_str() == "all" && are_options(&ALL_SETTINGS, rest) {
            return Some(Subcommand::All(AllOptions::of_words(rest)));
        }
        None
    }
}
