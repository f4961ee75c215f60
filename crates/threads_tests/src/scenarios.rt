//! What a client does while the controllers work.

/// What a client does while the controllers work, and what it waits for.
pub trait Scenario {
    /// Runs the scenario, and returns whether all that it waits for has come.
    fn run(&mut self) -> bool;
}
