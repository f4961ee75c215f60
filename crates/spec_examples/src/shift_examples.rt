//! Worked facts of what deltas change, which the checker computes from the definitions.
ghost use Rattle.spec_examples.specs.ShiftExamples.{ListsShift, ListsReplace, PutsShift, RemovalsShift, MarksShiftNothing};

/// What a list changes.
pub fn lists_shift()
    // By key, what differs: one object goes, one comes, one changes, and one stays.
    ensures differing { ListsShift }
    // A list takes out what it does not have.
    ensures replacing { ListsReplace }
{}

/// What a single change of an object changes.
pub fn objects_shift()
    // An object that is put shifts alone, and the revision is its own.
    ensures puts { PutsShift }
    // One that is removed shifts alone; what is not there does not.
    ensures removals { RemovalsShift }
    // A mark moves the revision alone.
    ensures marks { MarksShiftNothing }
{}
