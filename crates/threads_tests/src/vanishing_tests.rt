//! A pod whose owner came and went between two lists.
use crate::clients::Client;
use crate::environments::Environment;
use crate::running::run_beside;
use crate::vanishing::Vanishing;
use manager::Open;
use std::alloc::AllocError;

/// How many passes there are: for four followers, a worker and a client.
const PASSES: usize = 6;

#[test]
fn a_pod_goes_whose_owner_came_and_went_unseen(rt: HostRuntime) -> Result<(), AllocError> {
    let (environment, mut passes) = Environment::open(rt.alloc(), PASSES)?;
    let scene = environment.scene(&rt, rt.alloc());
    let client = Client::new(&scene, &mut passes)?;
    let mut vanishing = Vanishing {
        alloc: rt.alloc(),
        client,
        environment: &environment,
    };
    let has_gone = run_beside(&scene, &mut passes, 1, &Open, &mut vanishing)?;
    assert!(rt; has_gone, "the pod is still there");
    Ok(())
}
