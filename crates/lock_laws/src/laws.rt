//! The laws. The functions do nothing: each has a law as its contract.

ghost use Rattle.lock_laws.specs.Laws.{LockNamesItsSeat, LockIsWonOrWaits, FreedLockIsNobodys, OtherStepsLeaveLocks};
ghost use Rattle.lock_laws.specs.Laws.{InsertKeepsList, RemoveKeepsList, OtherListsStand, BetweenLocksOneItem};
ghost use Rattle.lock_laws.specs.Laws.{SeatsKeepLists, FreshLocksAreFree, NamedListStands};
ghost use Rattle.lock_laws.specs.Wrong.{ForgetfulRemovalsAreWrong, HastyInsertionsAreWrong, SeizedLocksAreWrong};
ghost use Rattle.lock_laws.specs.Wrong.{KeptLocksAreWrong, OneWayLocksAreWrong};

/// A lock's word says who has it: one seat, which it names, or nobody.
pub fn lock_names_its_seat()
    ensures { LockNamesItsSeat }
{}

/// The exchange that takes a lock makes a free one the seat's; of another's it writes nothing.
pub fn lock_is_won_or_waits()
    ensures { LockIsWonOrWaits }
{}

/// The store that frees a lock makes it nobody's.
pub fn freed_lock_is_nobodys()
    ensures { FreedLockIsNobodys }
{}

/// Locks stand where other words are written, and where a seat goes on with the lock that it has, or without one.
pub fn other_steps_leave_locks()
    ensures { OtherStepsLeaveLocks }
{}

/// Each store of an insertion keeps the list with its change.
pub fn insert_keeps_list()
    ensures { InsertKeepsList }
{}

/// Each store of a removal keeps the list with its change.
pub fn remove_keeps_list()
    ensures { RemoveKeepsList }
{}

/// A change of a list leaves the words of another list, where the lists have no item in common.
pub fn other_lists_stand()
    ensures { OtherListsStand }
{}

/// Between taking a list's lock and freeing it the list gets one item more at its head, or has one less, and else is as
/// it was.
pub fn between_locks_one_item()
    ensures { BetweenLocksOneItem }
{}

/// In any run of any number of seats each list has the items that were put in and not taken out, both ways.
pub fn seats_keep_lists()
    ensures { SeatsKeepLists }
{}

/// In a new pool nobody has a lock, and lists are empty.
pub fn fresh_locks_are_free()
    ensures { FreshLocksAreFree }
{}

/// A lock that a seat has, a list of three blocks, and the same list while a block comes or leaves meet every part.
pub fn named_list_stands()
    ensures { NamedListStands }
{}

/// A removal that forgets the link back is wrong.
pub fn forgetful_removals_are_wrong()
    ensures { ForgetfulRemovalsAreWrong }
{}

/// An insertion that makes the item the first before it has links is wrong.
pub fn hasty_insertions_are_wrong()
    ensures { HastyInsertionsAreWrong }
{}

/// A lock that is taken by a store is another's too.
pub fn seized_locks_are_wrong()
    ensures { SeizedLocksAreWrong }
{}

/// A lock that is freed is no longer its seat's.
pub fn kept_locks_are_wrong()
    ensures { KeptLocksAreWrong }
{}

/// Locks that fit one way alone may name a seat that has none.
pub fn one_way_locks_are_wrong()
    ensures { OneWayLocksAreWrong }
{}
