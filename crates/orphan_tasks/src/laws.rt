//! The laws. The functions do nothing: each has a law as its contract.

ghost use Rattle.orphan_tasks.specs.Laws.{TurnsMoveOrphanTasks, BeginsStartOrphanTasks, MadeLocalsFitOrphans};
ghost use Rattle.orphan_tasks.specs.Laws.{StartedOrphansAreStarts, RowsLeaveOrphanTasks, TurnsMoveOrphanHeaps};
ghost use Rattle.orphan_tasks.specs.Laws.{TasksTie, StrippedOrphansTieOtherwise, OrphanStepsAreTheRows};

/// Each turn, whatever it found, leaves the task and the spares that the rows of orphans leave; where they leave no
/// task, the local is at a position at which one may start. It keeps what a local says of orphans by itself.
pub fn turns_move_orphan_tasks()
    ensures { TurnsMoveOrphanTasks }
{}

/// A call or a reset that begins is at a position at which a task may start, and the spares are the same; one that is
/// refused changes nothing.
pub fn begins_start_orphan_tasks()
    ensures { BeginsStartOrphanTasks }
{}

/// A fresh local says of orphans what turns and begins keep.
pub fn made_locals_fit_orphans()
    ensures { MadeLocalsFitOrphans }
{}

/// What a local starts is what a seat may begin with.
pub fn started_orphans_are_starts()
    ensures { StartedOrphansAreStarts }
{}

/// The tasks and spares that are left here are those that the rows of orphans leave to a seat, and to no other.
pub fn rows_leave_orphan_tasks()
    ensures { RowsLeaveOrphanTasks }
{}

/// The heap after a turn with orphans: an adopted slab is added with its header's record, one that is left is removed,
/// and an adopted one is joined.
pub fn turns_move_orphan_heaps()
    ensures { TurnsMoveOrphanHeaps }
{}

/// A seat's tasks with orphans, with mail and with objects are those of one position, as the laws of what is given
/// back have it, but where a reset ends a grant in an orphan.
pub fn tasks_tie()
    ensures { TasksTie }
{}

/// There the seat has an orphan in hand while it ends a grant, which those laws do not have.
pub fn stripped_orphans_tie_otherwise()
    ensures { StrippedOrphansTieOtherwise }
{}

/// The next step of a seat is the one that the rows of orphans make of its task; each other step writes no own word,
/// no header and no chain of orphans.
pub fn orphan_steps_are_the_rows()
    ensures { OrphanStepsAreTheRows }
{}
