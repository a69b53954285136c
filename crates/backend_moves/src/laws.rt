//! The laws. The functions do nothing: each has a law as its contract.

ghost use Rattle.backend_moves.specs.Laws.{CutsAreTurned, QueuesAreTurned, ScansAreTurned, WholesAreTurned};

/// A look at the queue is a step of the whole.
pub fn queues_are_turned()
    ensures { QueuesAreTurned }
{}

/// Where a region without a piece that fits goes into its bin, each turn is a step of the whole.
pub fn wholes_are_turned()
    ensures { WholesAreTurned }
{}

/// Each turn of a scan is a step of the whole.
pub fn scans_are_turned()
    ensures { ScansAreTurned }
{}

/// Each turn of a cut is steps of the whole, of which one cuts a block in two.
pub fn cuts_are_turned()
    ensures { CutsAreTurned }
{}
