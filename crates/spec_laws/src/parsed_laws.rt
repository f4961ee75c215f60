//! Laws of what may be sent again, for who reads objects and writes them changed.
ghost use Rattle.spec_laws.specs.ParsedLaws.{StoredAreParsed, ListedAreParsed, NamesAreValid, MetadataEditsStayParsed, MembersStayParsed, InnerEditsStayParsed, ReferencesStayParsed, ReferencesReadAgain, MadePodsAreParsed};

/// An object that is there is as a parser gives it, so who read it may send it again.
pub fn stored_are_parsed()
    ensures { StoredAreParsed }
{}

/// Each object of a list is as a parser gives it.
pub fn listed_are_parsed()
    ensures { ListedAreParsed }
{}

/// An object that is there has a namespace and a name as they have to be, so another may be created beside it.
pub fn names_are_valid()
    ensures { NamesAreValid }
{}

/// What is as a parser gives it stays so where a member of its metadata, named in UTF-8, is set to what is so, or
/// removed.
pub fn metadata_edits_stay_parsed()
    ensures { MetadataEditsStayParsed }
{}

/// What is as a parser gives it stays so where another member, named in UTF-8, is set to what is so, as its status.
pub fn members_stay_parsed()
    ensures { MembersStayParsed }
{}

/// What is as a parser gives it stays so where a member of one of its members, both named in UTF-8, is set to what is so,
/// as the replicas in its spec.
pub fn inner_edits_stay_parsed()
    ensures { InnerEditsStayParsed }
{}

/// Owner references are as a parser gives them where some are left out, or have a truth value set.
pub fn references_stay_parsed()
    ensures { ReferencesStayParsed }
{}

/// An object that reads as itself does so where some of its owner references, not all, are left out, or have a truth value
/// set.
pub fn references_read_again()
    ensures { ReferencesReadAgain }
{}

/// The pod that is made of an object's template is as a parser gives it, where the object and the references are.
pub fn made_pods_are_parsed()
    ensures { MadePodsAreParsed }
{}
