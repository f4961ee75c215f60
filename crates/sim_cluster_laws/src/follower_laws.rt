//! Laws of one follower.
ghost use Rattle.sim_cluster_laws.specs.FollowerLaws.{MovesFollow, FollowersStand, MovesRise, ServersServe};

/// Each move leaves what is published the server's list at the revision that is published, and what waits what makes of it the
/// list at the reflector's revision.
pub fn moves_follow()
    ensures { MovesFollow }
{}

/// Whatever else happens at the server, what a follower has published is still the list at its revision.
pub fn followers_stand()
    ensures { FollowersStand }
{}

/// No move lowers the revision that is published.
pub fn moves_rise()
    ensures { MovesRise }
{}

/// A server that follows what has happened answers the same to each follower, so each move is the same by either.
pub fn servers_serve()
    ensures { ServersServe }
{}
