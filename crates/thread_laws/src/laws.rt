//! The laws. The functions do nothing: each has a law as its contract.

ghost use Rattle.thread_laws.specs.Laws.{TablesAreStates, TablesKeepGrants, TablesKeepLocks, TablesKeepRegions};
ghost use Rattle.thread_laws.specs.Laws.{TablesKeepRanges, TablesArePaid, QuietPoolsListGrants};

use pool_types::Raw;

/// Whatever threads do with a shared pool, at any moment its table is a state of a run, and the entry of each heap is
/// its seat's, in whichever thread's hand it is.
pub fn tables_are_states<R: Raw>()
    ensures { TablesAreStates R.out R.faults R.got R.passed }
{}

/// At any moment no two marks of the table name one grant, no two objects that heaps were granted have one, no grant
/// was ended twice, and none that was ended is at a mark.
pub fn tables_keep_grants<R: Raw>()
    ensures { TablesKeepGrants R.out R.faults R.got R.passed }
{}

/// At any moment each lock's word names a heap's seat exactly where the heap has the lock, no two heaps have one, and
/// the next step of a heap leaves the lock of another and the words of its bin.
pub fn tables_keep_locks<R: Raw>()
    ensures { TablesKeepLocks R.out R.faults R.got R.passed }
{}

/// At any moment no granule and no wall is in the regions of two slots, and the office's word names a heap's seat
/// exactly where the heap is at the office.
pub fn tables_keep_regions<R: Raw>()
    ensures { TablesKeepRegions R.out R.faults R.got R.passed }
{}

/// At any moment each word holds what its kind may hold, and the word of each heap's next step is one of its kind, but
/// for a step that empties the slot behind the last one.
pub fn tables_keep_ranges<R: Raw>()
    ensures { TablesKeepRanges R.out R.faults R.got R.passed }
{}

/// At any moment what a heap was granted and has freed is what its answers and the resets say, and behind that what its
/// call has granted and freed that has no answer yet.
pub fn tables_are_paid<R: Raw>()
    ensures { TablesArePaid R.out R.faults R.got R.passed }
{}

/// Each leak of a quiet pool was granted to the heap that its grant names, no heap has ended it, and it is listed once.
pub fn quiet_pools_list_grants<R: Raw>()
    ensures { QuietPoolsListGrants R.out R.faults R.got R.passed }
{}
