//! The laws. The functions do nothing: each has a law as its contract.

ghost use Rattle.backend_tasks.specs.Laws.{TurnsMoveGuardTasks, TurnsMoveBinTasks, TurnsMoveQueueTasks};
ghost use Rattle.backend_tasks.specs.Laws.{BeginsStartBackendTasks, RowsLeaveGuardTasks, RowsLeaveBinTasks};
ghost use Rattle.backend_tasks.specs.Laws.{RowsLeaveQueueTasks, TurnsKeepBackendFits, BeginsKeepBackendFits};
ghost use Rattle.backend_tasks.specs.Laws.{FreshLocalsFit, TasksAreOfOnePosition};

/// Each turn, whatever it found, leaves the task on guards that their rows leave; where they leave none, there is
/// none or the first step of a win.
pub fn turns_move_guard_tasks()
    ensures { TurnsMoveGuardTasks }
{}

/// Each turn, whatever it found, leaves the task in bins that their rows leave, and no other.
pub fn turns_move_bin_tasks()
    ensures { TurnsMoveBinTasks }
{}

/// Each turn, whatever it saw, leaves the task at the queue that its rows leave; where they leave none, there is none
/// or the first step of a push.
pub fn turns_move_queue_tasks()
    ensures { TurnsMoveQueueTasks }
{}

/// A call that begins, or a reset, begins only where no task was, and with none; one that is refused changes nothing.
pub fn begins_start_backend_tasks()
    ensures { BeginsStartBackendTasks }
{}

/// Each step is a row of guards: its action is that of the task, and what is left is what the row leaves.
pub fn rows_leave_guard_tasks()
    ensures { RowsLeaveGuardTasks }
{}

/// Where a local fits, each step is a row of bins.
pub fn rows_leave_bin_tasks()
    ensures { RowsLeaveBinTasks }
{}

/// Where a local fits, each step is a row of the queue.
pub fn rows_leave_queue_tasks()
    ensures { RowsLeaveQueueTasks }
{}

/// What a local says by itself of blocks at work stays so, whatever is found but for lengths in the last bin.
pub fn turns_keep_backend_fits()
    ensures { TurnsKeepBackendFits }
{}

/// A call or a reset that begins keeps that.
pub fn begins_keep_backend_fits()
    ensures { BeginsKeepBackendFits }
{}

/// A new local says nothing of blocks at work.
pub fn fresh_locals_fit()
    ensures { FreshLocalsFit }
{}

/// Where a local fits, what its seat is about to do with guards, in bins and with the queue is of one position.
pub fn tasks_are_of_one_position()
    ensures { TasksAreOfOnePosition }
{}
