//! Laws of all that can have happened at a server, whoever asked.
ghost use Rattle.spec_laws.specs.ReachedLaws.{RunsAreReached, PastsAreReached, RequestsAreAsked, MomentsAreTimes, ReachedCanHappen, ReachedStayWithinLimits, ReachedCarryRevisions};

/// What has happened once some lines were read is reached: each law of what is reached is one of every session.
pub fn runs_are_reached()
    ensures { RunsAreReached }
{}

/// What had happened before something reached is reached.
pub fn pasts_are_reached()
    ensures { PastsAreReached }
{}

/// What is read of a method, a target and a body may be asked: a server that accepts only that stays among what is
/// reached.
pub fn requests_are_asked()
    ensures { RequestsAreAsked }
{}

/// A moment as objects carry it may be the moment of a request.
pub fn moments_are_times()
    ensures { MomentsAreTimes }
{}

/// Whoever asks, the history stays one that can happen: none is compacted that is yet to come.
pub fn reached_can_happen()
    ensures { ReachedCanHappen }
{}

/// Whoever asks, the number of objects and the revision stay within their limits.
pub fn reached_stay_within_limits()
    ensures { ReachedStayWithinLimits }
{}

/// Whoever asks, each object that is ever stored names the revision of its own write, so no two versions are confused.
pub fn reached_carry_revisions()
    ensures { ReachedCarryRevisions }
{}
