//! How far a rolling update goes.
ghost use Rattle.std.specs.Prelude.{◌≡◌};
ghost use Rattle.spec_api.specs.declared.amounts.Amount.TheVariants.{Pods, Percent};
ghost use Rattle.spec_reconcile.specs.Counts.{not_below_0};
ghost use Rattle.spec_reconcile.specs.Deployments.{pace_of, rolling_amount};
ghost use Rattle.spec_reconcile.specs.Rollouts.{at_least_one, pace, rounded_down, rounded_up};

use meta::Object;
use object_fields::{amount, in_spec};
use reconcile_types::{count_in_spec, not_below_0};
use spec_api::amounts::Amount;
use spec_reconcile::Pace;

/// Returns so many of the replicas, where a part of a pod counts as a pod.
fn rounded_up(amount: Amount, replicas: u64) -> u128
    ensures { result ≡ rounded_up amount replicas }
{
    match amount {
        Amount::Pods(number) => not_below_0(number) as u128,
        Amount::Percent(percent) => (percent as u128 * replicas as u128 + 99) / 100,
    }
}

/// Returns so many of the replicas, where a part of a pod does not count.
fn rounded_down(amount: Amount, replicas: u64) -> u128
    ensures { result ≡ rounded_down amount replicas }
{
    match amount {
        Amount::Pods(number) => not_below_0(number) as u128,
        Amount::Percent(percent) => percent as u128 * replicas as u128 / 100,
    }
}

/// Returns the pace of a rolling update of so many replicas.
fn pace(replicas: u64, surge: Amount, unavailable: Amount) -> Pace
    ensures { result ≡ pace replicas surge unavailable }
{
    let above = rounded_up(surge, replicas);
    let below = rounded_down(unavailable, replicas);
    let below = if above == 0 && below == 0 { 1 } else { below };
    Pace {
        wanted: replicas,
        surge: above,
        unavailable: below.min(replicas as u128) as u64,
    }
}

/// Returns an amount of the rolling update, which is no pods where it is not there.
fn rolling_amount(name: &str, deployment: &Object) -> Amount
    ensures { result ≡ rolling_amount name.now deployment.now.value }
{
    let Some(strategy) = in_spec(deployment, "strategy") else {
        return Amount::Pods(0);
    };
    let Some(rolling) = strategy.get("rollingUpdate") else {
        return Amount::Pods(0);
    };
    match rolling.get(name) {
        Some(found) => amount(found).unwrap_or(Amount::Pods(0)),
        None => Amount::Pods(0),
    }
}

/// Returns the pace at which a Deployment replaces its pods.
pub(crate) fn pace_of(deployment: &Object) -> Pace
    ensures { result ≡ pace_of deployment.now.value }
{
    let replicas = count_in_spec(deployment, "replicas");
    let surge = rolling_amount("maxSurge", deployment);
    let unavailable = rolling_amount("maxUnavailable", deployment);
    pace(replicas, surge, unavailable)
}
