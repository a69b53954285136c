//! The laws. The functions do nothing: each has a law as its contract.

ghost use Rattle.seat_starts.specs.Laws.{AnswersAreHere, BeginsAreHere, StartsTie};

/// Where all that a position says is there but for what starts, the seat's own steps lead to where all of it is.
pub fn starts_tie()
    ensures { StartsTie }
{}

/// Where a call begins, its first position is there but for what starts; one that is refused changes nothing.
pub fn begins_are_here()
    ensures { BeginsAreHere }
{}

/// Where a call is answered, that its seat is idle is there.
pub fn answers_are_here()
    ensures { AnswersAreHere }
{}
