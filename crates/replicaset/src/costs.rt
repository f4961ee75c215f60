//! What the deletion of a pod costs.
ghost use Rattle.std.specs.Prelude.{◌≡◌, true, pos, if◌then◌else◌};
ghost use Rattle.std.specs.List.{list_all};
ghost use Rattle.std.specs.Str.Parse.{signed_digits_value};
ghost use Rattle.spec_api.specs.Moments.{is_digit};
ghost use Rattle.spec_reconcile.specs.PodRanks.{after_minus, cost, deletion_cost, is_decimal, is_of_32_bits};

use meta::Object;
use object_fields::text_in;

/// Returns whether each byte is a decimal digit.
fn are_digits(bytes: &[u8]) -> bool
    ensures { result ≡ list_all is_digit bytes.now }
{
    bytes.iter().all(|byte| b'0' <= *byte && *byte <= b'9')
}

/// Returns the bytes of a text without a minus at its beginning.
fn after_minus(text: &str) -> &[u8]
    ensures { result.now ≡ after_minus text.now }
{
    let bytes = text.as_bytes();
    match bytes.split_first() {
        Some((first, rest)) => { if *first == b'-' { rest } else { bytes } }
        None => bytes,
    }
}

/// Returns whether a text is a decimal number, which a minus may precede.
fn is_decimal(text: &str) -> bool
    ensures { result ≡ is_decimal text.now }
{
    let digits = after_minus(text);
    !digits.is_empty() && are_digits(digits)
}

/// Returns a decimal number, if it is of 32 bits, and else 0.
fn number(text: &str) -> i32
    requires { is_decimal text.now ≡ true }
    ensures { result ≡ (if is_of_32_bits (signed_digits_value 10 text.now) then signed_digits_value 10 text.now else pos 0) }
{
    match text.parse::<i32>() {
        Ok(number) => number,
        Err(_) => 0,
    }
}

/// Returns what a text costs: the signed decimal number of 32 bits that it is, and else 0.
fn cost(text: &str) -> i32
    ensures { result ≡ cost text.now }
{
    if is_decimal(text) { number(text) } else { 0 }
}

/// Returns what the pod's annotation says that its deletion costs. It takes no memory.
pub(crate) fn deletion_cost(pod: &Object) -> i32
    ensures { result ≡ deletion_cost pod.now.value }
{
    match pod.metadata_member("annotations") {
        Some(annotations) => cost(text_in(annotations.get(
            "controller.kubernetes.io/pod-deletion-cost",
        ))),
        None => 0,
    }
}
