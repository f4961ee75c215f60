//! Words of which each is a name or the value after it.
ghost use Rattle.std.specs.Prelude.{◌≡◌, ◌≤◌, map, option_map, unwrap_or, string_bytes, IfSome};
ghost use Rattle.kcp_options.specs.Options.{row, value_after, is_one_of, is_option, are_options, said};

use crate::setting::Setting;

/// Returns the word after a name, where every other word is a name, from the first on.
pub(crate) fn value_after<'a>(name: &str, words: &'a [String]) -> Option<&'a str>
    ensures { option_map (λ value. value.now) result ≡ value_after name.now (map string_bytes words.now) }
{
    let mut rest = words;
    while let [word, value, more @ ..] = rest {
        if word.as_str() == name {
            return Some(value.as_str());
        }
        rest = more;
    }
    None
}

/// Returns whether a name and a value are one of these options, with a number that it takes.
pub(crate) fn is_one_of(settings: &[Setting], name: &str, value: &str) -> bool
    ensures { result ≡ is_one_of settings.now name.now value.now }
{
    settings.iter().any(|setting| name == setting.name() && setting.take(value).is_some())
}

/// Returns whether a name and a value are one of these options, and the name does not come again.
fn is_option(settings: &[Setting], name: &str, value: &str, more: &[String]) -> bool
    ensures { result ≡ is_option settings.now name.now value.now (map string_bytes more.now) }
{
    is_one_of(settings, name, value) && value_after(name, more).is_none()
}

/// Returns whether the words are these options, each at most once, with a value after each.
pub fn are_options(settings: &[Setting], words: &[String]) -> bool
    ensures { result ≡ are_options settings.now (map string_bytes words.now) }
{
    let mut rest = words;
    while let [name, value, more @ ..] = rest {
        if !is_option(settings, name.as_str(), value.as_str(), more) {
            return false;
        }
        rest = more;
    }
    rest.is_empty()
}

/// Returns the number that the words give for an option.
pub fn said(setting: Setting, words: &[String]) -> Option<u64>
    ensures value { result ≡ said setting (map string_bytes words.now) }
    ensures greatest { IfSome result (λ number. number ≤ (row setting).greatest) }
{
    match value_after(setting.name(), words) {
        Some(value) => setting.take(value),
        None => None,
    }
}

/// Returns the number that the words give for an option, or else its default.
pub(crate) fn said_or(setting: Setting, default: u64, words: &[String]) -> u64
    requires { default ≤ (row setting).greatest }
    ensures value { result ≡ unwrap_or (said setting (map string_bytes words.now)) default }
    ensures greatest { result ≤ (row setting).greatest }
{
    match said(setting, words) {
        Some(number) => number,
        None => default,
    }
}
