//! Laws of a cluster.
ghost use Rattle.sim_cluster_laws.specs.ClusterLaws.{StepsKeep, RunsAreFollowed, InformersShowServerLists, PublishedRevisionsRise, RestartsBeginAnew, NamedVersionsAreReplaced};

/// Each step leaves the server with what can have happened, and each follower following it.
pub fn steps_keep()
    ensures { StepsKeep }
{}

/// Over every list of steps, what has happened at the server can happen, and each follower follows it.
pub fn runs_are_followed()
    ensures { RunsAreFollowed }
{}

/// Over every list of steps of clients, reflectors, cut streams and compactions, what each informer has published is the server's
/// list at the revision published with it.
pub fn informers_show_server_lists()
    ensures { InformersShowServerLists }
{}

/// Between two restarts the revisions that an informer publishes never fall.
pub fn published_revisions_rise()
    ensures { PublishedRevisionsRise }
{}

/// A restart leaves what has happened at the server, and nothing of what followed it.
pub fn restarts_begin_anew()
    ensures { RestartsBeginAnew }
{}

/// A client's line that names the version of an object, and writes, replaced exactly that version.
pub fn named_versions_are_replaced()
    ensures { NamedVersionsAreReplaced }
{}
