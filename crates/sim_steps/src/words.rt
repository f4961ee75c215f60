//! The words of a line.
ghost use Rattle.std.specs.Prelude.{◌≡◌, option_map};
ghost use Rattle.std.specs.List.{list_all};
ghost use Rattle.std.specs.Str.{bytes_eq};
ghost use Rattle.spec_api.specs.Moments.{is_digit};
ghost use Rattle.spec_line_protocol.specs.Lines.{cut};
ghost use Rattle.spec_sim.specs.StepLines.{words, number_of, kind_of};
ghost use Rattle.sim_steps.specs.Words.{both_now, words_seen, with_first, few_words, is_number};

use spec_api::kinds::Kind;

/// The most digits of a number.
const MOST_DIGITS: usize = 9;

/// Two words, or three.
#[derive(Clone, Copy)]
pub(crate) struct Words<'t> {
    pub(crate) first: &'t [u8],
    pub(crate) second: &'t [u8],
    pub(crate) third: Option<&'t [u8]>,
}

/// Returns what stands before and after the first space, if there is one.
pub(crate) fn cut<'t>(text: &'t [u8]) -> Option<(&'t [u8], &'t [u8])>
    ensures { option_map both_now result ≡ cut text.now }
{
    for (i, byte) in text.iter().enumerate() {
        if *byte == b' ' {
            let (before, rest) = text.split_at(i);
            return Some((before, rest.split_at(1).1));
        }
    }
    None
}

impl<'t> Words<'t> {
    /// Returns a first word, and the one or two that the rest of a text has; nothing, where it has more.
    fn with(first: &'t [u8], rest: &'t [u8]) -> Option<Words<'t>>
        ensures { option_map words_seen result ≡ with_first first.now (words rest.now) }
    {
        let Some((second, third)) = cut(rest) else {
            return Some(Words {
                first,
                second: rest,
                third: None,
            });
        };
        match cut(third) {
            Some(_) => None,
            None => Some(Words {
                first,
                second,
                third: Some(third),
            }),
        }
    }

    /// Returns the words of a text, which are parted by single spaces; nothing, where they are fewer than two or more than three.
    pub(crate) fn read(text: &'t [u8]) -> Option<Words<'t>>
        ensures { option_map words_seen result ≡ few_words (words text.now) }
    {
        match cut(text) {
            Some((first, rest)) => Words::with(first, rest),
            None => None,
        }
    }
}

/// Returns whether a word is this text.
pub(crate) fn is(word: &[u8], text: &str) -> bool
    ensures { result ≡ bytes_eq word.now text.now }
{
    word == text.as_bytes()
}

/// Returns whether each byte of the text is a decimal digit.
fn has_digits(text: &str) -> bool
    ensures { result ≡ list_all is_digit text.now }
{
    text.bytes().all(|byte| b'0' <= byte && byte <= b'9')
}

/// Returns whether the text is one to nine decimal digits.
fn is_number(text: &str) -> bool
    ensures { result ≡ is_number text.now }
{
    if text.is_empty() || text.len() > MOST_DIGITS {
        return false;
    }
    has_digits(text)
}

/// Returns the number that one to nine digits spell; zeros may lead.
pub(crate) fn number(word: &[u8]) -> Option<u64>
    ensures { result ≡ number_of word.now }
{
    let Ok(text) = str::from_utf8(word) else {
        return None;
    };
    if !is_number(text) {
        return None;
    }
    match text.parse::<u64>() {
        Ok(number) => Some(number),
        Err(_) => None,
    }
}

/// Returns the kind with this plural name.
pub(crate) fn kind(word: &[u8]) -> Option<Kind>
    ensures { result ≡ kind_of word.now }
{
    Kind::ALL
        .iter()
        .find(|kind| is(word, kind.plural()))
        .copied()
}
