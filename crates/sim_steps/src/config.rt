//! The sizes of a simulation, and how its followers begin.
ghost use Rattle.std.specs.Prelude.{◌≡◌, option_map};
ghost use Rattle.spec_sim.specs.StepLines.{number_after, initial_said, initial_sync_of};
ghost use Rattle.sim_steps.specs.Words.{words_seen, initial_by, config_by};

use crate::words::{Words, cut, is, number};
use spec_sim::initial_syncs::InitialSync;

/// The greatest window.
const GREATEST_WINDOW: u64 = 65_536;

/// The most workers.
const MOST_WORKERS: u64 = 64;

/// The sizes of a simulation, and how its followers begin.
#[derive(Clone, Copy)]
pub struct Config {
    /// How many changes of each kind the server records.
    pub window: usize,
    /// How many workers there are.
    pub workers: usize,
    /// How followers take in at first all that is there.
    pub initial: InitialSync,
}

impl Default for Config {
    ghost use Rattle.std.specs.Prelude.{◌≡◌};
    ghost use Rattle.spec_sim.specs.StepLines.{default_config};
    ghost use Rattle.sim_steps.specs.Configs.{config_seen};

    /// Returns what holds where nothing is said: windows of 1024 changes, 4 workers, and followers that begin with lists.
    fn default() -> Config
        ensures { config_seen result ≡ default_config }
    {
        Config {
            window: 1024,
            workers: 4,
            initial: InitialSync::List,
        }
    }
}

/// Returns the number that follows a name.
fn number_after(name: &[u8], word: &[u8]) -> Option<u64>
    ensures { result ≡ number_after name.now word.now }
{
    number(word.strip_prefix(name)?)
}

/// Returns how followers begin, by its name.
fn initial_sync(name: &[u8]) -> Option<InitialSync>
    ensures { result ≡ initial_sync_of name.now }
{
    if is(name, "list") {
        Some(InitialSync::List)
    } else if is(name, "stream") {
        Some(InitialSync::Stream)
    } else {
        None
    }
}

/// Returns how followers begin, as a word says.
fn initial_said(word: &[u8]) -> Option<InitialSync>
    ensures { result ≡ initial_said word.now }
{
    initial_sync(word.strip_prefix(b"initial=")?)
}

/// Returns how followers begin, as a word says, or else by lists.
fn initial_by(word: Option<&[u8]>) -> Option<InitialSync>
    ensures { result ≡ initial_by (option_map (λ t. t.now) word.entry) }
{
    match word {
        Some(word) => initial_said(word),
        None => Some(InitialSync::List),
    }
}

impl Config {
    ghost use Rattle.std.specs.Prelude.{◌≡◌, ◌∷◌, option_map, option_and_then};
    ghost use Rattle.spec_sim.specs.StepLines.{words, config_within, config_in, config_of_line};
    ghost use Rattle.sim_steps.specs.Configs.{config_seen};
    ghost use Rattle.sim_steps.specs.Words.{few_words};

    /// Returns these sizes, where they are within their limits, and how followers begin.
    fn within(window: u64, workers: u64, initial: InitialSync) -> Option<Config>
        ensures { option_map config_seen result ≡ config_within window workers initial }
    {
        if window == 0 || window > GREATEST_WINDOW || workers == 0 || workers > MOST_WORKERS {
            return None;
        }
        Some(Config {
            window: window as usize,
            workers: workers as usize,
            initial,
        })
    }

    /// Returns the sizes that two words say, and how followers begin, as a third one may say.
    fn with_words(words: &Words<'_>) -> Option<Config>
        ensures { option_map config_seen result ≡ config_by (words_seen words.now) }
    {
        let window = number_after(b"window=", words.first)?;
        let workers = number_after(b"workers=", words.second)?;
        let initial = initial_by(words.third)?;
        Config::within(window, workers, initial)
    }

    /// Returns what the words after the first one say.
    fn after(rest: &[u8]) -> Option<Config>
        ensures { option_map config_seen result ≡ option_and_then config_by (few_words (words rest.now)) }
    {
        match Words::read(rest) {
            Some(words) => Config::with_words(&words),
            None => None,
        }
    }

    /// Returns what a line says, of which this stands before and after the first space.
    fn with_first(first: &[u8], rest: &[u8]) -> Option<Config>
        ensures { option_map config_seen result ≡ config_in (first.now ∷ words rest.now) }
    {
        if is(first, "config") {
            Config::after(rest)
        } else {
            None
        }
    }

    /// Returns what a line says that comes without its newline, as `config window=4 workers=1` or `config window=4 workers=1
    /// initial=stream`: a window of 1 to 65,536 changes, 1 to 64 workers, and whether followers begin with a `list`, as where it
    /// does not say, or with a `stream`. Nothing, where it is no such line.
    pub fn read(line: &[u8]) -> Option<Config>
        ensures { option_map config_seen result ≡ config_of_line line.now }
    {
        match cut(line) {
            Some((first, rest)) => Config::with_first(first, rest),
            None => None,
        }
    }
}
