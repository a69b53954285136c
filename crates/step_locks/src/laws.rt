//! The laws. The functions do nothing: each has a law as its contract.

ghost use Rattle.step_locks.specs.Laws.{TurnsChangeLocks, BeginsKeepLocks, StepsTakeAndFreeLocks, LocksNameTheirSeat};
ghost use Rattle.step_locks.specs.Laws.{LocksAreHeldOnce, OthersLeaveHeldLocks};
ghost use Rattle.step_locks.specs.UnderLocks.{StepsWriteUnderLocks, OthersLeaveLockedWords};

use pool_types::Raw;

/// A turn makes of the lock that a seat has what its position says.
pub fn turns_change_locks()
    ensures { TurnsChangeLocks }
{}

/// A call that begins, or a reset, begins without a lock.
pub fn begins_keep_locks()
    ensures { BeginsKeepLocks }
{}

/// A step on a lock's word takes the lock, by a seat that has none, or frees it; no other step writes such a word.
pub fn steps_take_and_free_locks()
    ensures { StepsTakeAndFreeLocks }
{}

/// In each state of a run the word of each bin's lock, and of each cache bin's, names a seat exactly where the seat's
/// local says that it has the lock.
pub fn locks_name_their_seat<R: Raw>()
    ensures { LocksNameTheirSeat R.out R.faults R.got R.passed }
{}

/// So no two seats have one lock.
pub fn locks_are_held_once<R: Raw>()
    ensures { LocksAreHeldOnce R.out R.faults R.got R.passed }
{}

/// While a seat has a lock, no step of another writes the lock's word.
pub fn others_leave_held_locks<R: Raw>()
    ensures { OthersLeaveHeldLocks R.out R.faults R.got R.passed }
{}

/// A step writes a bin's head only with that bin's lock, and a word of a cache bin only with that cache bin's; a
/// block's links in a bin, and its link and age in the cache, with the lock of one.
pub fn steps_write_under_locks()
    ensures { StepsWriteUnderLocks }
{}

/// So while a seat has the lock of a bin, no step of another writes the bin's head, and while it has that of a cache
/// bin, no step of another writes a word of the cache bin.
pub fn others_leave_locked_words<R: Raw>()
    ensures { OthersLeaveLockedWords R.out R.faults R.got R.passed }
{}
