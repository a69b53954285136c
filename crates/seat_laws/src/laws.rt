//! The laws. The functions do nothing: each has a law as its contract.

ghost use Rattle.seat_laws.specs.Laws.{SeatsLeftAloneAreTied, OthersStepsLeaveSeats, StepsLeaveOthers};

/// A seat of which nothing changes stays tied to its local.
pub fn seats_left_alone_are_tied()
    ensures { SeatsLeftAloneAreTied }
{}

/// A step of one seat changes nothing of any other.
pub fn others_steps_leave_seats()
    ensures { OthersStepsLeaveSeats }
{}

/// So each other seat stays tied to its local through that step.
pub fn steps_leave_others()
    ensures { StepsLeaveOthers }
{}
