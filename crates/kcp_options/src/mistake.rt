//! What is not understood of words that ask no command, and how the program or the command that they name is used.
ghost use Rattle.std.specs.Prelude.{◌≡◌, ◌∷◌, map, option_map, string_bytes};
ghost use Rattle.std.specs.List.{list_any};
ghost use Rattle.kcp_options.specs.Mistakes.{first_strange, is_name, not_understood, settings_of, strange_of, usage_about};

use crate::command::{ALL_SETTINGS, CONTROL_SETTINGS, SERVE_SETTINGS};
use crate::setting::Setting;
use crate::usage::Usage;
use crate::words::{is_one_of, value_after};

/// What is not understood of words that ask no command.
#[derive(Clone, Copy)]
pub struct Mistake<'a> {
    /// The first word that is not understood: it names no command, is no option of the command, comes again, has no value after it, or is no
    /// value that the option before it takes. There is none where nothing is said, or where only the server is missing.
    pub word: Option<&'a str>,
    /// How the command is used that the words name, or else the program.
    pub usage: Usage,
}

/// Returns whether one of these options is called so.
fn is_name(settings: &[Setting], name: &str) -> bool
    ensures { result ≡ is_name settings.now name.now }
{
    settings.iter().any(|setting| name == setting.name())
}

/// Returns the name, where it is no option or comes again, or the value, where the option does not take it.
fn strange_of<'a>(
    settings: &[Setting],
    name: &'a str,
    value: &'a str,
    more: &[String],
) -> Option<&'a str>
    ensures { option_map (λ word. word.now) result ≡ strange_of settings.now name.now value.now (map string_bytes more.now) }
{
    if !is_name(settings, name) || value_after(name, more).is_some() {
        Some(name)
    } else if is_one_of(settings, name, value) {
        None
    } else {
        Some(value)
    }
}

/// Returns the first word that is no option, comes again, has no value after it, or is no value of the option before it.
fn not_understood<'a>(settings: &[Setting], words: &'a [String]) -> Option<&'a str>
    ensures { option_map (λ word. word.now) result ≡ not_understood settings.now (map string_bytes words.now) }
{
    let mut rest = words;
    while let [name, value, more @ ..] = rest {
        match strange_of(settings, name.as_str(), value.as_str(), more) {
            Some(word) => return Some(word),
            None => rest = more,
        }
    }
    match rest.first() {
        Some(name) => Some(name.as_str()),
        None => None,
    }
}

/// Returns the options that a command takes.
fn settings_of(usage: Usage) -> &'static [Setting]
    ensures { result.now ≡ settings_of usage }
{
    match usage {
        Usage::Program | Usage::Replay | Usage::Simulate => &[],
        Usage::Serve => &SERVE_SETTINGS,
        Usage::Control => &CONTROL_SETTINGS,
        Usage::All => &ALL_SETTINGS,
    }
}

impl<'a> Mistake<'a> {
    /// Returns what is not understood of a first word and those after it.
    fn of_named(name: &'a str, rest: &'a [String]) -> Mistake<'a>
        ensures word { option_map (λ word. word.now) result.word ≡ first_strange (name.now ∷ map string_bytes rest.now) }
        ensures usage { result.usage ≡ usage_about (name.now ∷ map string_bytes rest.now) }
    {
        match Usage::of_command(name) {
            Some(usage) => Mistake {
                word: not_understood(settings_of(usage), rest),
                usage,
            },
            None => Mistake {
                word: Some(name),
                usage: Usage::Program,
            },
        }
    }

    /// Returns what is not understood of words that ask no command.
    pub fn of(words: &'a [String]) -> Mistake<'a>
        ensures word { option_map (λ word. word.now) result.word ≡ first_strange (map string_bytes words.now) }
        ensures usage { result.usage ≡ usage_about (map string_bytes words.now) }
    {
        match words.split_first() {
            Some((name, rest)) => Mistake::of_named(name.as_str(), rest),
            None => Mistake {
                word: None,
                usage: Usage::Program,
            },
        }
    }
}
