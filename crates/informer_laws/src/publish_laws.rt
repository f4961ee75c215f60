//! Laws of what is published.
ghost use Rattle.informer_laws.specs.PublishLaws.{InformersShowLists};

/// Whoever asked a server: an informer to which a reflector's list and then whatever part of a watch has come, in whatever
/// pieces, were appended, publishes just the server's list at the revision that it names, whatever it had published before.
pub fn informers_show_lists()
    ensures { InformersShowLists }
{}
