//! Worked facts of defaults and checks.
ghost use Rattle.spec_examples.specs.CheckExamples.{NamesAreNeeded, NamesAreMade, LabelsAreChecked, FinalizersAreChecked, OwnersAreChecked, UidsOfTheFutureAreKnown, NumbersAreChecked, SelectorsAreChecked, TemplatesAreChecked, StrategiesAreChecked, PercentagesAreDigits, FirstFaultsAreSaid, UpdatesAreChecked, DefaultsAreFilledIn};

/// What names and labels an object may have, each rule met and missed by one.
pub fn names_and_labels_are_checked()
    // An object has a valid name, or one is made for it.
    ensures names_are_needed { NamesAreNeeded }
    // A name is made of lower-case letters, digits, `-` and `.`, where it is then a DNS subdomain.
    ensures names_are_made { NamesAreMade }
    // Labels have valid keys, and values of at most 63 bytes.
    ensures labels_are_checked { LabelsAreChecked }
{}

/// What finalizers and owners an object may have.
pub fn finalizers_and_owners_are_checked()
    // A finalizer has 1 to 253 bytes.
    ensures finalizers_are_checked { FinalizersAreChecked }
    // Owners are named whole, one at most is a controller, and none is of the future.
    ensures owners_are_checked { OwnersAreChecked }
    // A uid is of the future where this server prints it at a revision above the present one.
    ensures uids_of_the_future_are_known { UidsOfTheFutureAreKnown }
{}

/// What the specs of ReplicaSets and Deployments have to be.
pub fn specs_are_checked()
    // Replicas, the history limit and the counts of a status are not negative.
    ensures numbers_are_checked { NumbersAreChecked }
    // A selector says something, and each operator has the values that it takes.
    ensures selectors_are_checked { SelectorsAreChecked }
    // A template has valid labels that the selector matches.
    ensures templates_are_checked { TemplatesAreChecked }
    // A rolling update has two amounts, not both 0, the second at most 100%.
    ensures strategies_are_checked { StrategiesAreChecked }
    // A percentage is 1 to 9 digits and `%`.
    ensures percentages_are_digits { PercentagesAreDigits }
{}

/// What is done before, between and after these checks.
pub fn checks_come_in_order()
    // Defaults are filled in where they are absent.
    ensures defaults_are_filled_in { DefaultsAreFilledIn }
    // Of several faults the first in the order of the checks is answered.
    ensures first_faults_are_said { FirstFaultsAreSaid }
    // An update keeps the selector, and adds no finalizer to an object that is being deleted.
    ensures updates_are_checked { UpdatesAreChecked }
{}
