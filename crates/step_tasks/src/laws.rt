//! The laws. The functions do nothing: each has a law as its contract.

ghost use Rattle.step_tasks.specs.Laws.{TurnsMoveObjectTasks, BeginsStartObjectTasks, StartedTasksAreStarts};
ghost use Rattle.step_tasks.specs.Laws.{RowsLeaveObjectTasks, TurnsMoveMailTasks, BeginsStartMailTasks};
ghost use Rattle.step_tasks.specs.Laws.{RowsLeaveMailTasks};

/// Each turn, whatever it found, leaves the task that the rows of objects leave; where they leave none, the local is
/// at a position at which one may start.
pub fn turns_move_object_tasks()
    ensures { TurnsMoveObjectTasks }
{}

/// A call that begins, or a reset, begins at a position at which a task may start; one that is refused changes none.
pub fn begins_start_object_tasks()
    ensures { BeginsStartObjectTasks }
{}

/// What a local starts is what a seat may begin with.
pub fn started_tasks_are_starts()
    ensures { StartedTasksAreStarts }
{}

/// The tasks that are left here are those that the rows of objects leave to a seat, and to no other.
pub fn rows_leave_object_tasks()
    ensures { RowsLeaveObjectTasks }
{}

/// Each turn, whatever it found, leaves the task that the rows of mail leave; where they leave none, the local is at a
/// position at which one may start.
pub fn turns_move_mail_tasks()
    ensures { TurnsMoveMailTasks }
{}

/// A call that begins, or a reset, begins at a position at which a task of mail may start.
pub fn begins_start_mail_tasks()
    ensures { BeginsStartMailTasks }
{}

/// The tasks of mail that are left here are those that the rows of posts and of mail leave.
pub fn rows_leave_mail_tasks()
    ensures { RowsLeaveMailTasks }
{}
