//! Texts of digits, and the numbers that they are.
ghost use Rattle.std.specs.Prelude.{◌≡◌, ◌<◌, ◌≤◌, ◌^◌, length, true};
ghost use Rattle.std.specs.List.{list_all};
ghost use Rattle.std.specs.Str.Parse.{digits_value};
ghost use Rattle.spec_api.specs.Moments.{is_digit};

/// Returns whether each byte of a text is a decimal digit. It takes no memory.
pub fn has_digits(text: &str) -> bool
    ensures { result ≡ list_all is_digit text.now }
{
    text.bytes().all(|byte| b'0' <= byte && byte <= b'9')
}

/// Returns the number of at most 18 decimal digits. It takes no memory.
#[tactic(auto, using(crate::proofs::FewDigits::is_small))]
pub fn number_of(digits: &str) -> u64
    requires digits { list_all is_digit digits.now ≡ true }
    requires there { 0 < length digits.now }
    requires few { length digits.now ≤ 18 }
    ensures value { result ≡ digits_value 10 digits.now }
    ensures small { result < 2 ^ 60 }
{
    match digits.parse::<u64>() {
        Ok(number) => number,
        Err(_) => 0,
    }
}
