//! The laws. The functions do nothing: each has a law as its contract.

ghost use Rattle.seat_ties.specs.Laws.{FreshSeatsAreTied, RunsGoOn, TurnsStartDesks, TurnsKeepWhatIsSaid};
ghost use Rattle.seat_ties.specs.Laws.{SeatsLeftAreHere, NothingIsSaidElsewhere, ScansSayOn};

/// Each seat of a new pool does nothing, has nothing in hand, and is tied to a new local.
pub fn fresh_seats_are_tied()
    ensures { FreshSeatsAreTied }
{}

/// Runs of a seat one after the other are one run.
pub fn runs_go_on()
    ensures { RunsGoOn }
{}

/// A seat that has nothing to do at the office comes there by its lock.
pub fn turns_start_desks()
    ensures { TurnsStartDesks }
{}

/// A turn keeps what a local says by itself, where the words say what it rests on.
pub fn turns_keep_what_is_said()
    ensures { TurnsKeepWhatIsSaid }
{}

/// Where a whole has what the rows of all groups leave of a seat, its next position is there.
pub fn seats_left_are_here()
    ensures { SeatsLeftAreHere }
{}

/// Where a job goes on that neither gets nor puts blocks, the words have nothing to say, and nothing is won.
pub fn nothing_is_said_elsewhere()
    ensures { NothingIsSaidElsewhere }
{}

/// Where a scan's step leads to, the block that it looks at is in the list of the bin whose lock it has.
pub fn scans_say_on()
    ensures { ScansSayOn }
{}
