//! The laws. The functions do nothing: each has a law as its contract.

ghost use Rattle.cache_moves.specs.Laws.{TurnsAreWholeSteps, TurnsLeaveOtherTasks, StartsAreWholeSteps};
ghost use Rattle.cache_moves.specs.Laws.{TicksAreWholeSteps};

/// A turn at a get, an undo, a put or a sweep of the cache is a step of the whole, which leaves the memory that the
/// local's step does, and of the seat's job what the local has left.
pub fn turns_are_whole_steps()
    ensures { TurnsAreWholeSteps }
{}

/// A turn at the cache leaves what every seat is about to do elsewhere.
pub fn turns_leave_other_tasks()
    ensures { TurnsLeaveOtherTasks }
{}

/// A local that starts a job at the cache begins one in the whole.
pub fn starts_are_whole_steps()
    ensures { StartsAreWholeSteps }
{}

/// A tick of the clock is a step of the whole, which changes no word but that.
pub fn ticks_are_whole_steps()
    ensures { TicksAreWholeSteps }
{}
