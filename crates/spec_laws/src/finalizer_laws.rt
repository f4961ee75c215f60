//! Laws of the finalizers that a delete leaves.
ghost use Rattle.spec_laws.specs.FinalizerLaws.{NoPolicyLeavesAll, PoliciesReplaceFinalizers};

/// A delete without a policy leaves the finalizers as they are.
pub fn no_policy_leaves_all()
    ensures { NoPolicyLeavesAll }
{}

/// One with a policy leaves all other finalizers, and of `orphan` and `foregroundDeletion` its own at the end; where these are
/// the finalizers already, the list stays as it is.
pub fn policies_replace_finalizers()
    ensures { PoliciesReplaceFinalizers }
{}
