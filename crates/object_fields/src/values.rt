//! Amounts that values say: numbers of pods, and percentages (Kubernetes API reference, RollingUpdateDeployment).
ghost use Rattle.std.specs.Prelude.{◌≡◌, option_and_then};
ghost use Rattle.serde_json.specs.Find.{as_str};
ghost use Rattle.serde_json.specs.View.{view};
ghost use Rattle.spec_api.specs.Checks.{amount, percentage, pods};

use crate::digits::{has_digits, number_of};
use serde_json::Value;
use spec_api::amounts::Amount;

/// The most digits of a percentage.
const MOST_DIGITS: usize = 9;

/// The greatest number of 32 bits with a sign.
const MOST_PODS: i64 = 2147483647;

/// Returns the percentage that a text says.
fn percentage(text: &str) -> Option<Amount>
    ensures { result ≡ percentage text.now }
{
    match text.split_once('%') {
        Some((digits, rest)) => {
            if !rest.is_empty() {
                return None;
            }
            if digits.is_empty() {
                return None;
            }
            if digits.len() > MOST_DIGITS {
                return None;
            }
            if !has_digits(digits) {
                return None;
            }
            Some(Amount::Percent(number_of(digits)))
        }
        None => None,
    }
}

/// Returns so many pods, if they can be so many.
fn pods(number: i64) -> Option<Amount>
    ensures { result ≡ pods number }
{
    if number < 0 {
        return None;
    }
    if number > MOST_PODS {
        return None;
    }
    Some(Amount::Pods(number))
}

/// Returns the percentage that a value says.
fn percentage_in(value: &Value) -> Option<Amount>
    ensures { result ≡ option_and_then percentage (as_str (view value.now)) }
{
    match value.as_str() {
        Some(text) => percentage(text),
        None => None,
    }
}

/// Returns the amount that a value says: a number of pods, or a percentage of the replicas. It takes no memory.
pub fn amount(value: &Value) -> Option<Amount>
    ensures { result ≡ amount (view value.now) }
{
    match value.as_i64() {
        Some(number) => match pods(number) {
            Some(found) => Some(found),
            None => percentage_in(value),
        },
        None => percentage_in(value),
    }
}
