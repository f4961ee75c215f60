//! Laws of a control plane.
ghost use Rattle.sim_control_plane_laws.specs.PlaneLaws.{PlanesAreFollowed, InformersShowServerLists, PublishedRevisionsRise, LooksAreServerLists, NamedVersionsAreReplaced, IssuedVersionsAreReplaced};

/// Over every list of steps, what has happened at the server can happen, and each follower follows it.
pub fn planes_are_followed()
    ensures { PlanesAreFollowed }
{}

/// Over every list of steps of clients, controllers, reflectors, workers, cut streams and compactions, what each informer has
/// published is the server's list at the revision published with it.
pub fn informers_show_server_lists()
    ensures { InformersShowServerLists }
{}

/// Between two restarts the revisions that an informer publishes never fall.
pub fn published_revisions_rise()
    ensures { PublishedRevisionsRise }
{}

/// Over every list of steps, each look of a turn in which a command was issued is the server's list at its revision.
pub fn looks_are_server_lists()
    ensures { LooksAreServerLists }
{}

/// A client's line that names the version of an object, and writes, replaced exactly that version.
pub fn named_versions_are_replaced()
    ensures { NamedVersionsAreReplaced }
{}

/// A command that a worker issues, names the version of an object, and writes, replaced exactly that version.
pub fn issued_versions_are_replaced()
    ensures { IssuedVersionsAreReplaced }
{}
