//! Heads of requests: by which check each is refused, computed by the checker.
ghost use Rattle.spec_http.specs.HeadExamples.{HeadsAreWritten, LengthsComeFirst, PathsComeBeforeMethods, QueriesComeBeforeLengths, LengthsAreRequired, LongBodiesComeBeforeTypes, TypesAreChecked, PatchesAreTaken};

/// Each check of a head refuses, in this order.
pub fn checks_come_in_order()
    // A head as it is written.
    ensures heads_are_written { HeadsAreWritten }
    // Two lengths, and what is no length, come before the path.
    ensures lengths_come_first { LengthsComeFirst }
    // The path, then the namespace, then the method, then the query.
    ensures paths_come_before_methods { PathsComeBeforeMethods }
    // The query, then the version that a watch needs, then the length.
    ensures queries_come_before_lengths { QueriesComeBeforeLengths }
    // A transfer coding is no length, and some methods need one.
    ensures lengths_are_required { LengthsAreRequired }
    // The length's limit, then the media type.
    ensures long_bodies_come_before_types { LongBodiesComeBeforeTypes }
    // The media types that are taken.
    ensures types_are_checked { TypesAreChecked }
    // A patch passes them all.
    ensures patches_are_taken { PatchesAreTaken }
{}
