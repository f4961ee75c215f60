//! What follows of a worker's turn.
ghost use Rattle.manager_worker.specs.Older.{LooksAreNotOlder};
ghost use Rattle.manager_worker.specs.Repeating.{AreIssuedInOrder};
ghost use Rattle.manager_worker.specs.Sparing.{SparesLiveOwners};

use crate::looking::Looking;
use api_client::Api;

/// No command that may have been carried out is issued again in its turn: where it is to be issued again, it was not sent, or not asked for; else it is
/// noted, which stays so, and the command that comes next is another one of the plan.
pub fn commands_are_issued_once<L: Looking, A: Api>()
    ensures { AreIssuedInOrder L.shows A.answers }
{}

/// No look of a turn is older than what was handled before its key was taken: whatever of a kind is handled in the history after which the key was
/// taken, each look at this kind shows a map of that revision or of a later one.
pub fn looks_are_not_older<L: Looking>()
    ensures { LooksAreNotOlder L.shows }
{}

/// The collector spares what has a live owner, by what the server answered: the live reads of a turn are the server's answers in that turn, and where a
/// delete of the collector comes next, these have shown the object, and that each owner which it named was gone.
pub fn the_collector_spares_live_owners<L: Looking, A: Api>()
    ensures { SparesLiveOwners L.shows A.answers }
{}
