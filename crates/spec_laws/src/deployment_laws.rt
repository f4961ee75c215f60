//! Laws of the Deployment controller's plans.
ghost use Rattle.spec_laws.specs.DeploymentLaws.{SurgeIsLeast, UnavailableIsGreatest, GrowthIsGreatest, CutsAreGreatest, MadeStayBelow, ResizesStayBelow, OldSetsOnlyShrink, AvailablePodsStay, FewestStay, OldSetsStandIn, ScalesAskForTheirNumber, MadeSetsAskForTheirNumber, UpdatesNameTheLookedVersion, AtMostOneSetIsMade, WaitingOnesReport, OnlySpentSetsAreDeleted, LatestRevisionsStay};
ghost use Rattle.spec_laws.specs.RolloutLaws.{SurgeIsNeverPassed, TakenLeaveFewest, FewestStayAvailable};

/// The surge of a percentage is the least whole number that is no less than it.
pub fn surge_is_least()
    ensures { SurgeIsLeast }
{}

/// What may be unavailable, of a percentage, is the greatest whole number that is no more than it.
pub fn unavailable_is_greatest()
    ensures { UnavailableIsGreatest }
{}

/// The new set grows as far as it can, and no further.
pub fn growth_is_greatest()
    ensures { GrowthIsGreatest }
{}

/// The old sets lose the greatest list of numbers in dictionary order: the first set as many as it can, then the next.
pub fn cuts_are_greatest()
    ensures { CutsAreGreatest }
{}

/// What all sets ask for never passes the replicas and the surge as a new set is made, where it did not before.
pub fn made_stay_below()
    ensures { MadeStayBelow }
{}

/// What all sets ask for never passes the replicas and the surge as the new set changes, where it did not before.
pub fn resizes_stay_below()
    ensures { ResizesStayBelow }
{}

/// No old set is ever asked for more than before.
pub fn old_sets_only_shrink()
    ensures { OldSetsOnlyShrink }
{}

/// Of the available pods the old sets lose only those above the fewest that are to be available.
pub fn available_pods_stay()
    ensures { AvailablePodsStay }
{}

/// Where enough pods are available, enough of them stay.
pub fn fewest_stay()
    ensures { FewestStay }
{}

/// The old sets go on to ask for the fewest pods that are to be available, but for those that the new set has available.
pub fn old_sets_stand_in()
    ensures { OldSetsStandIn }
{}

/// A set that is scaled to a number asks for just so many pods.
pub fn scales_ask_for_their_number()
    ensures { ScalesAskForTheirNumber }
{}

/// A set that is made with a number asks for just so many pods.
pub fn made_sets_ask_for_their_number()
    ensures { MadeSetsAskForTheirNumber }
{}

/// An update of a set names the version that was looked at.
pub fn updates_name_the_looked_version()
    ensures { UpdatesNameTheLookedVersion }
{}

/// No plan makes more than one set.
pub fn at_most_one_set_is_made()
    ensures { AtMostOneSetIsMade }
{}

/// For a Deployment that is paused or being deleted nothing is done but to report its status.
pub fn waiting_ones_report()
    ensures { WaitingOnesReport }
{}

/// A plan deletes no set but old ones that have no pods and are to have none, by their uids, and none of the latest
/// revisions that the history is to have.
pub fn only_spent_sets_are_deleted()
    ensures { OnlySpentSetsAreDeleted }
{}

/// Of the old sets those of the latest revisions stay: as many as the history is to have, or all.
pub fn latest_revisions_stay()
    ensures { LatestRevisionsStay }
{}

/// However many commands of a plan are accepted, the sets ask for no more pods than the replicas and the surge, or than before.
pub fn surge_is_never_passed()
    ensures { SurgeIsNeverPassed }
{}

/// A rolling update takes no more of the available pods than leaves the fewest that are to be available, where so many are,
/// however many of its commands are accepted.
pub fn taken_leave_fewest()
    ensures { TakenLeaveFewest }
{}

/// Where no set has more available pods than it asks for, the fewest that are to be available stay, where so many are.
pub fn fewest_stay_available()
    ensures { FewestStayAvailable }
{}
