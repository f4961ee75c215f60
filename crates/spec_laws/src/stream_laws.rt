//! Laws of watches that begin with initial events.
ghost use Rattle.spec_laws.specs.StreamLaws.{PresentStartsAreEmpty, UnclosedStreamsAreLists, EarlyClosingsAreNone, FirstLooksAreSent, InitialStreamsAreSent, InitialStreamsAreServed, InitialsAreServed, OpeningsAreLists, ServersBegin};

/// A server gives the initial events that all that has happened says.
pub fn servers_begin()
    ensures { ServersBegin }
{}

/// The text of initial events is that of the lines of the list.
pub fn openings_are_lists()
    ensures { OpeningsAreLists }
{}

/// Who is given the initial events and then looks again and again from their revision sees one initial stream of all that
/// has happened.
pub fn initial_streams_are_served()
    ensures { InitialStreamsAreServed }
{}

/// No initial stream is closed before its last object.
pub fn early_closings_are_none()
    ensures { EarlyClosingsAreNone }
{}

/// The bytes of the initial events that a server gives, and of the looks from their revision, are those of one initial
/// stream of all that has happened.
pub fn initial_streams_are_sent()
    ensures { InitialStreamsAreSent }
{}

/// So are they after one look at the server as it is then, however many events it asks for.
pub fn first_looks_are_sent()
    ensures { FirstLooksAreSent }
{}

/// Initial events are given up to the present revision, and refused above it alone.
pub fn initials_are_served()
    ensures { InitialsAreServed }
{}

/// A watch from the present revision shows nothing so far.
pub fn present_starts_are_empty()
    ensures { PresentStartsAreEmpty }
{}

/// Without bookmarks a stream of initial events begins as a watch from no revision does.
pub fn unclosed_streams_are_lists()
    ensures { UnclosedStreamsAreLists }
{}
