//! The state while a pass holds it.
ghost use Rattle.std.specs.Prelude.{◌≡◌};

use std::marker::Model;

/// A baton's state while a pass holds it. Contracts see it as the state. It can only be given back: its field is
/// private, and it is not `Drop`, so no caller can take it apart, drop it or forget it.
pub struct Held<T> {
    state: T,
}

impl<T> Model for Held<T> {
    ghost Value = { T };

    ghost coded = { T.code };

    ghost view = { λ h. h.state };
}

impl<T> Held<T> {
    /// Returns a state as one that is held.
    pub(crate) fn new(state: T) -> Held<T>
        ensures { result ≡ state }
    {
        Held { state }
    }

    /// Returns the state.
    pub(crate) fn into_state(self) -> T
        ensures { result ≡ self }
    {
        let Held { state } = self;
        state
    }

    /// Returns a reference to the state.
    pub fn get(&self) -> &T
        ensures { result.now ≡ self.now }
    {
        &self.state
    }
}

impl<T> Held<T> {
    ghost use Rattle.std.specs.Borrow.{Lends, sem};
    ghost use Rattle.baton.specs.contracts.held.Held.{the_row};

    /// Returns a reference through which the state can be changed.
    pub fn get_mut(&mut self) -> &mut T
        ensures value { result.now ≡ self.old }
        ensures* writes_back { sem 𝓛 (Lends (the_row T.row) T.row self.entry result (λ state. state)) }
    {
        &mut self.state
    }
}
