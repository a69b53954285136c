//! The laws. The functions do nothing: each has a law as its contract.

ghost use Rattle.begun_laws.specs.Laws.{FreshBegunFits, NewSlabsAreNone, StepsKeepBegun, TiedSeatsHold};

/// In a new pool no slab is to begin.
pub fn fresh_begun_fits()
    ensures { FreshBegunFits }
{}

/// Each step of each seat leaves each slab that is to begin named by its seat.
pub fn steps_keep_begun()
    ensures { StepsKeepBegun }
{}

/// A slab that a tied seat is about to begin is a block in its hand.
pub fn tied_seats_hold()
    ensures { TiedSeatsHold }
{}

/// A slab that a seat is to begin next has no mail, while each other seat holds those that it begins.
pub fn new_slabs_are_none()
    ensures { NewSlabsAreNone }
{}
