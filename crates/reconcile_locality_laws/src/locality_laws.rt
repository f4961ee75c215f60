//! A plan reads only what owes it a look.
ghost use Rattle.reconcile_locality_laws.specs.ReplicaSetLocality.{SetPlansStay, SetsStaySettled};
ghost use Rattle.reconcile_locality_laws.specs.CollectorLocality.{ItemsStaySettled};
ghost use Rattle.reconcile_locality_laws.specs.DeploymentLocality.{DeploymentsStaySettled};

/// Where no ReplicaSet and no pod that differs owes a look at a set, and no pod that it was to adopt differs, its plan is the same.
pub fn set_plans_stay()
    ensures { SetPlansStay }
{}

/// Where nothing was to be done for a ReplicaSet, and nothing that differs owes a look at it, nothing is to be done for it.
pub fn sets_stay_settled()
    ensures { SetsStaySettled }
{}

/// Where the garbage collector had nothing to do for an object, and nothing that differs owes a look at it, it has nothing to do
/// for it.
pub fn items_stay_settled()
    ensures { ItemsStaySettled }
{}

/// Where nothing was to be done for a Deployment, and nothing that differs owes a look at it, nothing is to be done for it.
pub fn deployments_stay_settled()
    ensures { DeploymentsStaySettled }
{}
