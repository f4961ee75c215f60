//! Worked facts of creates, updates and patches.
ghost use Rattle.spec_examples.specs.VerbExamples.{GeneratedNamesAreTried, TakenNamesArePassedOver, NothingNewIsNotWritten, PatchesTakeOutNulls, DeploymentsAreFilledIn, GenerationsCountSpecs, ConfigMapsHaveNoStatus};

/// The names that the server makes.
pub fn names_are_generated()
    // A name is made of the revision of the write.
    ensures generated_names_are_tried { GeneratedNamesAreTried }
    // A made name that is taken is passed over.
    ensures taken_names_are_passed_over { TakenNamesArePassedOver }
{}

/// What creates, updates and patches store.
pub fn writes_are_stored()
    // A Deployment is stored with its defaults, its first generation and its first status.
    ensures deployments_are_filled_in { DeploymentsAreFilledIn }
    // An update that says nothing new is no write, and takes no revision.
    ensures nothing_new_is_not_written { NothingNewIsNotWritten }
    // A patch removes what is null in it, and leaves what it does not name.
    ensures patches_take_out_nulls { PatchesTakeOutNulls }
    // A new spec is a new generation, a new status is none.
    ensures generations_count_specs { GenerationsCountSpecs }
{}

/// What is refused before anything is looked up.
pub fn requests_are_refused()
    // A ConfigMap has no status to be replaced: it is not found, and nothing is written.
    ensures config_maps_have_no_status { ConfigMapsHaveNoStatus }
{}
