//! Moments, to the second, in UTC.
ghost use Rattle.std.specs.Prelude.{◌≡◌, ◌<◌, ◌≤◌, ◌^◌, ◌&&◌, length, nat_le, true, codes};
ghost use Rattle.std.specs.List.{list_all, zip};
ghost use Rattle.std.specs.Str.Parse.{digits_value};
ghost use Rattle.spec_api.specs.Moments.{is_digit, has_form, is_day, is_moment};
ghost use Rattle.metadata_values.specs.Forms.{fits};

use jiff::civil::Date;
use std::marker::Model;

/// The form of a moment: `0` stands for any digit.
const FORM: [u8; 20] = *b"0000-00-00T00:00:00Z";

/// A second of a day of the calendar, as its text `YYYY-MM-DDTHH:MM:SSZ`.
#[derive(Clone, Copy)]
pub struct Moment {
    bytes: [u8; 20],
}

impl Model for Moment {
    ghost use Rattle.std.specs.Prelude.{◌≡◌, ℕ, List, true};
    ghost use Rattle.spec_api.specs.Moments.{is_moment};

    ghost Value = { List ℕ };

    ghost view = { λ m. m.bytes };

    ghost invariant = { λ m. is_moment m.bytes ≡ true };

    ghost inverse = { λ t. record { bytes = t } };
}

/// Returns whether the byte is a decimal digit.
fn is_digit(byte: u8) -> bool
    ensures { result ≡ is_digit byte }
{
    b'0' <= byte && byte <= b'9'
}

/// Returns whether a byte may stand where the form has this mark.
fn fits(mark: u8, byte: u8) -> bool
    ensures { result ≡ fits mark byte }
{
    if mark == b'0' {
        is_digit(byte)
    } else {
        byte == mark
    }
}

/// Returns whether each byte of the text fits its mark, as far as both go.
fn has_marks(text: &[u8]) -> bool
    ensures { result ≡ list_all (λ p. fits p.0 p.1) (zip (codes "0000-00-00T00:00:00Z") text.now) }
{
    FORM.iter().zip(text).all(|(mark, byte)| fits(*mark, *byte))
}

/// Returns whether the text has digits and marks as the form has them.
fn has_form(text: &[u8]) -> bool
    ensures { result ≡ has_form (codes "0000-00-00T00:00:00Z") text.now }
{
    text.len() == FORM.len() && has_marks(text)
}

/// Returns the number that a few digits spell.
fn number(digits: &[u8]) -> u16
    requires few { length digits.now ≤ 4 }
    requires digits { list_all is_digit digits.now ≡ true }
    ensures value { result ≡ digits_value 10 digits.now }
    ensures small { result < 10 ^ length digits.now }
{
    let mut number: u16 = 0;
    for digit in digits {
        number = number * 10 + (*digit - b'0') as u16;
    }
    number
}

/// Returns whether the calendar has the day.
fn is_day(year: u16, month: u16, day: u16) -> bool
    requires year { year < 10000 }
    requires month { month < 100 }
    requires day { day < 100 }
    ensures { result ≡ is_day year month day }
{
    Date::new(year as i16, month as i8, day as i8).is_ok()
}

/// Returns whether a day has the second.
fn is_time(hour: u16, minute: u16, second: u16) -> bool
    ensures { result ≡ (nat_le hour 23 && nat_le minute 59 && nat_le second 59) }
{
    hour <= 23 && minute <= 59 && second <= 59
}

/// Returns whether the text is a moment.
fn is_moment(text: &[u8]) -> bool
    ensures { result ≡ is_moment text.now }
{
    if !has_form(text) {
        return false;
    }
    let year = number(&text[0..4]);
    let month = number(&text[5..7]);
    let day = number(&text[8..10]);
    let hour = number(&text[11..13]);
    let minute = number(&text[14..16]);
    let second = number(&text[17..19]);
    is_day(year, month, day) && is_time(hour, minute, second)
}

impl Moment {
    ghost use Rattle.std.specs.Prelude.{◌≡◌, true, if◌then◌else◌};
    ghost use Rattle.spec_api.specs.Replies.{start};
    ghost use Rattle.spec_api.specs.Replies.{default_window};
    ghost use Rattle.spec_api.specs.Moments.{is_moment};

    /// Returns the moment at which a session begins, `2026-01-01T00:00:00Z`.
    pub fn start() -> Moment
        ensures { result ≡ (start default_window).moment }
    {
        Moment {
            bytes: *b"2026-01-01T00:00:00Z",
        }
    }

    /// Returns the moment that a text names, if it is one.
    pub fn parse(text: &[u8]) -> Option<Moment>
        ensures { result ≡ (if is_moment text.now then Some text.now else None) }
    {
        if !is_moment(text) {
            return None;
        }
        let mut bytes = [0; 20];
        bytes.copy_from_slice(text);
        Some(Moment { bytes })
    }

    /// Returns the text's bytes.
    pub fn as_bytes(&self) -> &[u8]
        ensures text { result.now ≡ self.now }
        ensures moment { is_moment self.now ≡ true }
    {
        &self.bytes
    }

    /// Returns the text.
    pub fn as_str(&self) -> &str
        ensures text { result.now ≡ self.now }
        ensures moment { is_moment self.now ≡ true }
    {
        str::from_utf8(self.as_bytes()).unwrap()
    }
}
