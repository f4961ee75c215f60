//! What is told of the writes of a seat.
use spec_api::kinds::Kind;
use std::sync::Wait;

/// What is told of the writes of a seat, as a bell that wakes who waits for changes.
pub trait Listener {
    ghost use Rattle.spec_api.specs.declared.kinds.Kind as kinds;

    /// What hearing of a write of this kind of object makes of it.
    ghost Hears: { kinds.Kind → Self → Self → Type 0 };

    /// Hears that an object of a kind was written, after the server was given back.
    fn wrote<R: Wait>(&mut self, rt: &R, kind: Kind)
        ensures { Hears kind self.old self.new };
}

/// Does nothing when something is written.
#[derive(Clone, Copy, Drop)]
pub struct Silent;

impl Listener for Silent {
    ghost use Rattle.std.specs.Prelude.{◌≡◌};

    ghost Hears = { λ kind before after. after ≡ before };

    fn wrote<R: Wait>(&mut self, _rt: &R, _kind: Kind) {}
}
