//! Laws of servers that store windows in the place of a history.
ghost use Rattle.spec_laws.specs.ServerLaws.{ServersOpen, ServersWrite, ServersFollow, ServersCompact, CompactionsHappen, ServersAccept, ServersList, ServersWatch, ServersAnswerLists, ServersShow, WatchesStand, WatchesGoOn, ListsAreServed};

/// A new server stands for a history in which nothing has happened.
pub fn servers_open()
    ensures { ServersOpen }
{}

/// A server that takes in a write stands for the history with that write.
pub fn servers_write()
    ensures { ServersWrite }
{}

/// A server that takes in all that happens, each thing as it happens, stands for all of it, as far as its windows reach.
pub fn servers_follow()
    ensures { ServersFollow }
{}

/// A compaction is refused where it reaches past the present revision, and a server that takes it in goes on standing for what
/// has happened.
pub fn servers_compact()
    ensures { ServersCompact }
{}

/// Nothing is compacted that has not happened.
pub fn compactions_happen()
    ensures { CompactionsHappen }
{}

/// Each request is answered as if all that has ever happened were at hand, and its write is stored from then on.
pub fn servers_accept()
    ensures { ServersAccept }
{}

/// A list at any version, served or refused, is the one that the whole history gives.
pub fn servers_list()
    ensures { ServersList }
{}

/// What a watch is given, or the refusal that it meets, is what the whole history gives.
pub fn servers_watch()
    ensures { ServersWatch }
{}

/// What a watch is given are all events up to where it stands, however few it is given at a time: who applies them to the
/// list where it began has the list where it stands.
pub fn watches_stand()
    ensures { WatchesStand }
{}

/// A watch that goes on from where it stands misses no event and gets none twice, whatever has happened meanwhile.
pub fn watches_go_on()
    ensures { WatchesGoOn }
{}

/// A list is refused only where its revision has gone or is not yet there; the newest never is.
pub fn lists_are_served()
    ensures { ListsAreServed }
{}

/// A page of a list, with its metadata, is the one that the whole history gives.
pub fn servers_answer_lists()
    ensures { ServersAnswerLists }
{}

/// What a watch shows of all that has happened is what the whole history gives.
pub fn servers_show()
    ensures { ServersShow }
{}
