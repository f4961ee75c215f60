//! Laws of what lists and their pages are answered.
ghost use Rattle.spec_laws.specs.ReplyLaws.{ListsAreOnePage, RepliesAreRead, ObjectsAreReadBack, PageRepliesAreLists};

/// A list that is asked without options is answered as the one page of all there is.
pub fn lists_are_one_page()
    ensures { ListsAreOnePage }
{}

/// Who reads what a list of a kind is answered has the present revision and each object as it is stored.
pub fn replies_are_read()
    ensures { RepliesAreRead }
{}

/// What is sent of an object is read as the object, whatever was asked before.
pub fn objects_are_read_back()
    ensures { ObjectsAreReadBack }
{}

/// Who asks for page after page, each by what the reply before says, sees the list as it was at the first page: each object
/// once, in order, whatever was asked before, whatever the limits are and whatever is written meanwhile.
pub fn page_replies_are_lists()
    ensures { PageRepliesAreLists }
{}
