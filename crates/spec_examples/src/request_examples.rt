//! Worked facts, which the checker computes from the definitions: a slip in a definition shows here.
ghost use Rattle.spec_examples.specs.RequestExamples.{EmptyList, FirstCreate, SecondUpdateConflicts, CreateReadsBack, SecondCreateExists, AbsentIsNotFound, NamesAreChecked, BodiesAreRead, ServerSetsMetadata, PathsComeFirst, MomentsAreDays, UidsAreWritten, NamesAreSubdomains, PatchesMerge, UpdateKeepsIdentity, ListsAreOrdered, RefusalsAreSaid, SuccessesAreSaid, LastRevisionIsKept, MembersAreTyped, MembersAreKept, LinesAreRead, KindsAreNamed, LimitsAreExact};

/// What creates are answered, byte for byte.
pub fn creates_are_answered()
    // The first create has revision 2, and its uid encodes it.
    ensures first_create { FirstCreate }
    // What was created is read back, and listed without its kind.
    ensures create_reads_back { CreateReadsBack }
    // A name is created once.
    ensures second_create_exists { SecondCreateExists }
    // Nulls, empty texts and empty labels are left out, and the server sets what it owns.
    ensures server_sets_metadata { ServerSetsMetadata }
    // The greatest revision is given once, and then the storage is full.
    ensures last_revision_is_kept { LastRevisionIsKept }
{}

/// What updates and patches are answered.
pub fn updates_are_answered()
    // Of two updates that name one version the second is refused.
    ensures second_update_conflicts { SecondUpdateConflicts }
    // An update keeps what the server owns, and is refused where it names another uid.
    ensures update_keeps_identity { UpdateKeepsIdentity }
    // An object that is not there is not found, by a read or an update.
    ensures absent_is_not_found { AbsentIsNotFound }
    // Merge patches do what the examples of RFC 7396, Appendix A, say.
    ensures patches_merge { PatchesMerge }
{}

/// What lists are answered.
pub fn lists_are_answered()
    // The list of an empty store has no items, at revision 1.
    ensures empty_list { EmptyList }
    // A list of all namespaces goes by namespace, then name, and a list of one has only its own.
    ensures lists_are_ordered { ListsAreOrdered }
{}

/// Which bodies are taken, and what is stored of them.
pub fn bodies_are_checked()
    // A create without a name, or with a bad one, is invalid.
    ensures names_are_checked { NamesAreChecked }
    // A fraction, text that is no JSON object, and a label that is no text are refused.
    ensures bodies_are_read { BodiesAreRead }
    // A known member of another type is refused.
    ensures members_are_typed { MembersAreTyped }
    // What is well formed is preserved, known or not, and what is empty in metadata is left out.
    ensures members_are_kept { MembersAreKept }
{}

/// What lines of all forms are answered.
pub fn lines_are_answered()
    // A path is looked at before the method, the method before the query.
    ensures paths_come_first { PathsComeFirst }
    // Lines of another form, other methods and other paths are refused, and an empty line is skipped.
    ensures lines_are_read { LinesAreRead }
    // The Status of each refusal, as the API server would write it.
    ensures refusals_are_said { RefusalsAreSaid }
    // The Status of a removal and of a compaction.
    ensures successes_are_said { SuccessesAreSaid }
{}

/// Values of single definitions.
pub fn texts_are_exact()
    // The four kinds, as the API reference has them.
    ensures kinds_are_named { KindsAreNamed }
    // Names are DNS subdomains.
    ensures names_are_subdomains { NamesAreSubdomains }
    // A moment is a second of a day that the calendar has.
    ensures moments_are_days { MomentsAreDays }
    // A uid is the cluster, the version 8, the variant and the revision, in lower case.
    ensures uids_are_written { UidsAreWritten }
    // The longest names and the deepest body.
    ensures limits_are_exact { LimitsAreExact }
{}
