//! What controllers ask of the server can be asked as bytes.
ghost use Rattle.spec_laws.specs.AskedLaws.{PlansCanBeAsked};

/// Each command of each plan names a namespace as it has to be, where it creates an object, and has a body as a parser gives it,
/// where all that was looked at and read live is as servers store it.
pub fn plans_can_be_asked()
    ensures { PlansCanBeAsked }
{}
