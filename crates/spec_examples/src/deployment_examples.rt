//! Worked plans of Deployments, which the checker computes from the definitions.
ghost use Rattle.spec_examples.specs.DeploymentExamples.{NewSetsAreMade, OldSetsShrink, NewSetsGrow, AvailablePodsAreReplaced, BrokenPodsGoFirst, RolledBackSetsAreRaised, RevisionsAloneAreRaised, EmptyLabelsAreAbsent, PausedOnesAreLeft, DeletedOnesAreLeft, CountsAreApart, TakenNamesAreCounted, CountsAreInNames, CountsEnd, RecreateStopsOldPodsFirst, RecreateWaitsForOldPods, RecreateThenMakes, SpentSetsAreDeleted, OthersStay, NoneGoBefore};
ghost use Rattle.spec_examples.specs.RolloutExamples.{PacesAreRounded, TenAreReplaced, NewSetsAreBounded};

/// How far rolling updates go, by their numbers alone.
pub fn rolling_updates_are_bounded()
    // A surge is rounded up, and what may be unavailable is rounded down.
    ensures paces { PacesAreRounded }
    // Ten pods are replaced step by step.
    ensures ten { TenAreReplaced }
    // A new set shrinks to what is wanted, and does not grow beyond the most.
    ensures bounded { NewSetsAreBounded }
{}

/// How ten pods of an old template become ten of a new one.
pub fn pods_are_replaced()
    // A set of the new template is made.
    ensures made { NewSetsAreMade }
    // The old set shrinks.
    ensures shrink { OldSetsShrink }
    // The new set grows into the room.
    ensures grow { NewSetsGrow }
    // As pods of it are available, old ones go.
    ensures replaced { AvailablePodsAreReplaced }
    // Those that are not available go first.
    ensures broken { BrokenPodsGoFirst }
{}

/// Which set is the new one, and which revision it is.
pub fn sets_are_new_again()
    // A set that is new again gets the revision that is due.
    ensures raised { RolledBackSetsAreRaised }
    // Also where it has all its pods.
    ensures alone { RevisionsAloneAreRaised }
    // Labels that are empty without the hash count as absent.
    ensures empty { EmptyLabelsAreAbsent }
{}

/// What is done where a Deployment stands still.
pub fn statuses_are_reported()
    // One that is paused is left.
    ensures paused { PausedOnesAreLeft }
    // So is one that is being deleted.
    ensures deleted { DeletedOnesAreLeft }
    // Each count is told from the others.
    ensures apart { CountsAreApart }
{}

/// What is done where the new set's name is taken.
pub fn collisions_are_counted()
    // The collision is counted.
    ensures counted { TakenNamesAreCounted }
    // The count gives the set another name.
    ensures named { CountsAreInNames }
    // At the greatest count nothing is done.
    ensures end { CountsEnd }
{}

/// How a Deployment recreates its pods.
pub fn pods_are_recreated()
    // The old set is to have none first.
    ensures stopped { RecreateStopsOldPodsFirst }
    // Nothing is made while one of them runs.
    ensures waits { RecreateWaitsForOldPods }
    // Then the new set is made whole.
    ensures made { RecreateThenMakes }
{}

/// Which old sets are deleted.
pub fn old_sets_are_cleaned_up()
    // All but the last by revision.
    ensures spent { SpentSetsAreDeleted }
    // Not one whose controller has not seen that it is to have none.
    ensures others { OthersStay }
    // None before all pods are of the new template.
    ensures before { NoneGoBefore }
{}
