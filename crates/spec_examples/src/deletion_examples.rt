//! Worked facts of deletes.
ghost use Rattle.spec_examples.specs.DeletionExamples.{FinalizersKeepTheirObject, DeletesAreConditional, PoliciesAreFinalizers, RemovedPodsAreAnswered};

/// What deletes do, line by line.
pub fn deletes_are_answered()
    // An object with a finalizer has its deletionTimestamp set and stays, gets no other finalizer, and is removed with its last
    // one.
    ensures finalizers_keep_their_object { FinalizersKeepTheirObject }
    // A precondition that is not met, and a dry run, leave the object; a delete without either removes it.
    ensures deletes_are_conditional { DeletesAreConditional }
    // A policy is a finalizer: it marks once, and another policy takes it away.
    ensures policies_are_finalizers { PoliciesAreFinalizers }
    // A removed Pod is answered as it stood, at the revision of its removal.
    ensures removed_pods_are_answered { RemovedPodsAreAnswered }
{}
