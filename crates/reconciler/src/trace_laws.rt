//! Laws of what is asked.
ghost use Rattle.reconciler.specs.Traces.{TracesJoin};

use api_client::Api;

/// What is asked after something else was asked with it is one trace: so a reconcile that asks more than once may say what it asks.
pub fn traces_join<A: Api>()
    ensures { TracesJoin A.answers }
{}
