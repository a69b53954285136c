//! The laws. The functions do nothing: each has a law as its contract.

ghost use Rattle.cache_tasks.specs.Laws.{TurnsMoveCacheTasks, BeginsStartCacheTasks, StartedCacheTasksAreStarts};
ghost use Rattle.cache_tasks.specs.Laws.{RowsLeaveCacheTasks, CallsAreThoseOfTasks, TurnsKeepReleased};
ghost use Rattle.cache_tasks.specs.Laws.{FreshLocalsFit, GoodSweepsHaveRoom, TakenBlocksComeIntoHand};
ghost use Rattle.cache_tasks.specs.Laws.{ReleasedAreThoseThatGo, SweptBlocksArePut, TurnsAreShelfSteps};
ghost use Rattle.cache_tasks.specs.Laws.{StartsAreShelfSteps};

/// Each turn of a local with room for what it sweeps, whatever it found, leaves the task that the rows of the cache
/// leave; where they leave none, the local is at a position at which one may start.
pub fn turns_move_cache_tasks()
    ensures { TurnsMoveCacheTasks }
{}

/// A call that begins, or a reset, begins at a position at which a task may start; one that is refused changes none.
pub fn begins_start_cache_tasks()
    ensures { BeginsStartCacheTasks }
{}

/// What a local starts is what a seat may begin with.
pub fn started_cache_tasks_are_starts()
    ensures { StartedCacheTasksAreStarts }
{}

/// The tasks that are left here are those that the rows of the cache leave.
pub fn rows_leave_cache_tasks()
    ensures { RowsLeaveCacheTasks }
{}

/// What a job of a local is about, and its step, are what the rows have of its task.
pub fn calls_are_those_of_tasks()
    ensures { CallsAreThoseOfTasks }
{}

/// A local has released blocks only while a bin is swept or cleared, and while these blocks are put.
pub fn turns_keep_released()
    ensures { TurnsKeepReleased }
{}

/// A new local has released none.
pub fn fresh_locals_fit()
    ensures { FreshLocalsFit }
{}

/// While the cache is good, a sweep has room for each block that its bin has.
pub fn good_sweeps_have_room()
    ensures { GoodSweepsHaveRoom }
{}

/// While the cache is good, what a sweep has released when it frees the lock is what goes of its bin.
pub fn released_are_those_that_go()
    ensures { ReleasedAreThoseThatGo }
{}

/// What leaves a bin with a turn is in the local's hand after it.
pub fn taken_blocks_come_into_hand()
    ensures { TakenBlocksComeIntoHand }
{}

/// What a sweep released is put block by block, the oldest first.
pub fn swept_blocks_are_put()
    ensures { SweptBlocksArePut }
{}

/// Where a seat's job is its local's and it is at no guard, a turn at the cache is a step of a pool and its cache,
/// which finds and leaves the words that the local's step does.
pub fn turns_are_shelf_steps()
    ensures { TurnsAreShelfSteps }
{}

/// A local that starts a job at the cache begins one there, where there is such a bin, and the block is in hand.
pub fn starts_are_shelf_steps()
    ensures { StartsAreShelfSteps }
{}
