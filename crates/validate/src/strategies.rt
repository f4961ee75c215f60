//! How a Deployment replaces its Pods.
ghost use Rattle.std.specs.Prelude.{◌≡◌, option_and_then};
ghost use Rattle.serde_json.specs.Find.{get};
ghost use Rattle.serde_json.specs.View.{view};
ghost use Rattle.spec_api.specs.Checks.{amount, are_amounts, is_at_most_all, is_rolling, is_strategy, is_strategy_of, is_strategy_valid, is_zero};

use meta::Object;
use object_fields::{amount, in_spec};
use serde_json::Value;
use spec_api::amounts::Amount;

fn amount_at(value: &Value, name: &str) -> Option<Amount>
    ensures { result ≡ option_and_then amount (get name.now (view value.now)) }
{
    match value.get(name) {
        Some(found) => amount(found),
        None => None,
    }
}

fn is_zero(amount: Amount) -> bool
    ensures { result ≡ is_zero amount }
{
    match amount {
        Amount::Pods(number) => number <= 0,
        Amount::Percent(number) => number == 0,
    }
}

fn is_at_most_all(amount: Amount) -> bool
    ensures { result ≡ is_at_most_all amount }
{
    match amount {
        Amount::Pods(_) => true,
        Amount::Percent(number) => number <= 100,
    }
}

fn are_amounts(surge: Option<Amount>, unavailable: Option<Amount>) -> bool
    ensures { result ≡ are_amounts surge unavailable }
{
    match surge {
        Some(surge) => match unavailable {
            Some(unavailable) => {
                is_at_most_all(unavailable) && !(is_zero(surge) && is_zero(unavailable))
            }
            None => false,
        },
        None => false,
    }
}

fn is_rolling(value: &Value) -> bool
    ensures { result ≡ is_rolling (view value.now) }
{
    are_amounts(
        amount_at(value, "maxSurge"),
        amount_at(value, "maxUnavailable"),
    )
}

fn is_strategy_of(strategy: &Value, name: &str) -> bool
    ensures { result ≡ is_strategy_of (view strategy.now) name.now }
{
    if name == "RollingUpdate" {
        return match strategy.get("rollingUpdate") {
            Some(rolling) => is_rolling(rolling),
            None => false,
        };
    }
    name == "Recreate" && strategy.get("rollingUpdate").is_none()
}

fn is_strategy(strategy: &Value) -> bool
    ensures { result ≡ is_strategy (view strategy.now) }
{
    match strategy.get("type") {
        Some(found) => match found.as_str() {
            Some(name) => is_strategy_of(strategy, name),
            None => false,
        },
        None => false,
    }
}

/// Returns whether `spec.strategy` is one that Deployments have.
pub(crate) fn is_strategy_valid(object: &Object) -> bool
    ensures { result ≡ is_strategy_valid object.now.value }
{
    match in_spec(object, "strategy") {
        Some(strategy) => is_strategy(strategy),
        None => false,
    }
}
