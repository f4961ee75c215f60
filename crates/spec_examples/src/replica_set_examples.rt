//! Worked plans of ReplicaSets, which the checker computes from the definitions.
ghost use Rattle.spec_examples.specs.ReplicaSetExamples.{UnplacedGoFirst, UnreadyGoNext, NamesDecide, AllGo, NodesComeFirst, PhasesGoOneByOne, PhasesBeforeReadiness, ReadinessBeforeCosts, CheapGoFirst, CostsAreRead, MissingAreCreated, InactiveDoNotCount, NamespacesDiffer, UidsDecide, StraysGoOrphansCome, OtherReferencesStay, OrphansWait, OrphansAreAskedFor, StatusesAreTold, AllIsWell, GoneSetsAreLeft, ExpectedAreAwaited, DyingSetsAreLeft};

/// Which pods are deleted where there are too many.
pub fn surplus_pods_are_deleted()
    // One on no node goes first.
    ensures unplaced { UnplacedGoFirst }
    // Then one that is not ready.
    ensures unready { UnreadyGoNext }
    // Of two that are alike, the first by name goes.
    ensures names { NamesDecide }
    // Where none is wanted, all go.
    ensures all { AllGo }
{}

/// In which order the rules of deletion are tried.
pub fn ranks_go_in_order()
    // The node before the phase.
    ensures nodes { NodesComeFirst }
    // Any other phase, Unknown, Running.
    ensures phases { PhasesGoOneByOne }
    // The phase before whether a pod is ready.
    ensures readiness { PhasesBeforeReadiness }
    // Whether it is ready before the cost.
    ensures costs { ReadinessBeforeCosts }
    // The cost, how many are on the node, the age.
    ensures cheap { CheapGoFirst }
{}

/// What the annotation of a deletion's cost says.
pub fn costs_are_read()
    ensures { CostsAreRead }
{}

/// Which pods are a set's own, and what is created where some are missing.
pub fn missing_pods_are_created()
    // As many as are missing, of the template.
    ensures missing { MissingAreCreated }
    // Pods that are finished, have failed or are being deleted do not count.
    ensures inactive { InactiveDoNotCount }
    // Nor do those of another namespace.
    ensures elsewhere { NamespacesDiffer }
    // Nor does one that another set of that name owns.
    ensures others { UidsDecide }
{}

/// Which pods are released and adopted, and what is read before.
pub fn pods_are_claimed()
    // One that does not match is released, and one without a controller that matches is adopted.
    ensures claimed { StraysGoOrphansCome }
    // Other references stay as they are.
    ensures references { OtherReferencesStay }
    // None is adopted unless the set is there live.
    ensures wait { OrphansWait }
    // So it is read live, once.
    ensures asked { OrphansAreAskedFor }
{}

/// What the status says, and when nothing else is done.
pub fn statuses_are_told()
    // How many pods, how many of them ready, of which generation.
    ensures told { StatusesAreTold }
    // Where all is well there is no command.
    ensures well { AllIsWell }
    // Nor for a set that is gone.
    ensures gone { GoneSetsAreLeft }
    // While pods are expected none is created or deleted.
    ensures expected { ExpectedAreAwaited }
    // Of a set that is being deleted only the status is updated.
    ensures being_deleted { DyingSetsAreLeft }
{}
