//! Laws of watches that look again and again, and of those that begin with what is there.
ghost use Rattle.spec_laws.specs.LookLaws.{LooksAskForAnyNumber, LooksAreOneStream, WatchesBeginWithTheList};

/// A watch may ask for as few events at a time as it likes, or for none: it is answered all the same, and what it is shown
/// is whole up to where it then stands.
pub fn looks_ask_for_any_number()
    ensures { LooksAskForAnyNumber }
{}

/// Who looks again and again, each time from where the last look left off, sees one stream of all that has happened: no
/// event is lost and none comes twice, whatever happens between the looks.
pub fn looks_are_one_stream()
    ensures { LooksAreOneStream }
{}

/// A watch that names no revision, or 0, is first shown the list as it is: each object once, in order, and who takes these
/// in has the list.
pub fn watches_begin_with_the_list()
    ensures { WatchesBeginWithTheList }
{}
