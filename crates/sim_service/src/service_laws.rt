//! Laws of simulations.
ghost use Rattle.sim_service.specs.Laws.{SimulationsFollow, RepliesAreSimulated};

/// A simulation whose world stands for a control plane replies to each line as that does, and its world stands for it afterwards.
pub fn simulations_follow()
    ensures { SimulationsFollow }
{}

/// Where no line is refused for want of memory, what is written for all lines is what the definitions say of all that is read.
pub fn replies_are_simulated()
    ensures { RepliesAreSimulated }
{}
