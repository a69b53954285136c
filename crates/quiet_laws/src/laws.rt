//! The laws. The functions do nothing: each has a law as its contract.
ghost use Rattle.quiet_laws.specs.Homes.{OfficeLiesAtHome, SilenceLeavesAway};
ghost use Rattle.quiet_laws.specs.Resets.{ResetsBegin, ResetsGoOn};

use pool_types::Raw;

/// Where no call is begun, a reset begins: of the same seat and key, in a position of a reset.
pub fn resets_begin()
    ensures { ResetsBegin }
{}

/// A turn of a reset, whatever it finds, leads to a position of the reset, or it answers, and then none is begun.
pub fn resets_go_on()
    ensures { ResetsGoOn }
{}

/// A seat that has not taken the office had not taken it at its last step.
pub fn silence_leaves_away<R: Raw>()
    ensures { SilenceLeavesAway R.out R.faults R.got R.passed }
{}

/// Where no seat has taken the office, it lies at home.
pub fn office_lies_at_home<R: Raw>()
    ensures { OfficeLiesAtHome R.out R.faults R.got R.passed }
{}
