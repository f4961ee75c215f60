//! How the parts of a request's reading make the whole.
ghost use Rattle.request_parts.specs.Checked.{ChecksComeFirst};

/// A request is refused by the first check of its target that it does not pass, and else asks what its query and its
/// body say.
pub fn checks_come_first()
    ensures { ChecksComeFirst }
{}
