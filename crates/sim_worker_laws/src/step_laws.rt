//! Laws of the steps of a control plane.
ghost use Rattle.sim_worker_laws.specs.StepLaws.{ClosedStepsChangeNothing, OpenStepsAreCounted, RestartsBeginAnew, FirstListsShowNothing, TicksAddWhatIsDue};

/// A step that is not open changes nothing.
pub fn closed_steps_change_nothing()
    ensures { ClosedStepsChangeNothing }
{}

/// A step that is open is counted.
pub fn open_steps_are_counted()
    ensures { OpenStepsAreCounted }
{}

/// A restart leaves what has happened at the server, what was issued, and as many workers; all else begins anew.
pub fn restarts_begin_anew()
    ensures { RestartsBeginAnew }
{}

/// A change of the first list shows nothing of the pods that are expected.
pub fn first_lists_show_nothing()
    ensures { FirstListsShowNothing }
{}

/// Over every list of steps, a tick moves the time on, and each key whose moment has come then is to be processed.
pub fn ticks_add_what_is_due()
    ensures { TicksAddWhatIsDue }
{}
