//! The laws. The functions do nothing: each has a law as its contract.

ghost use Rattle.queue_laws.specs.Laws.{StepsKeepQueue, RunsKeepQueue, QueuedBlocksAreOnce, PushesQueueOrKeep};
ghost use Rattle.queue_laws.specs.Laws.{SwapTakesTheQueue, TakenLinksTellBlocks, FreshQueuesAreEmpty};
ghost use Rattle.queue_laws.specs.Laws.{PutEndsJoinedQueuedOrWhole, PutsComeIntoBins, OthersKeepPuts};
ghost use Rattle.queue_laws.specs.Laws.{AlonePutsLeaveNoTwo, AloneSidesAreUnmarked, PutsStepAtGuards};
ghost use Rattle.queue_laws.specs.Laws.{AloneWinsAreWon, AlonePutsNeverQueue, AlonePutsKeepCalm, NamedQueueStands};
ghost use Rattle.queue_laws.specs.Rests.{StepsKeepRest, RunsKeepRest, ScansKeepRest};
ghost use Rattle.queue_laws.specs.Apart.{StepsKeepApart, WonBlocksStandApart, CutsStandApart, RestsStayApart};
ghost use Rattle.queue_laws.specs.Apart.{CalmBeginsAndEnds};
ghost use Rattle.queue_laws.specs.Whole.{PutsLeaveNoWhole};
ghost use Rattle.queue_laws.specs.Wrong.{StoredPushesAreWrong};

/// Each step of each seat keeps what holds of blocks, guards and the queue.
pub fn steps_keep_queue()
    ensures { StepsKeepQueue }
{}

/// So does any number of steps.
pub fn runs_keep_queue()
    ensures { RunsKeepQueue }
{}

/// A queued block is in the queue's chain, once, with its granules in its link, and no seat has taken it.
pub fn queued_blocks_are_once()
    ensures { QueuedBlocksAreOnce }
{}

/// After each step of a push the block is in its seat's hand still, or queued.
pub fn pushes_queue_or_keep()
    ensures { PushesQueueOrKeep }
{}

/// The swap gives the chain of all queued blocks, which are in the seat's hand then.
pub fn swap_takes_the_queue()
    ensures { SwapTakesTheQueue }
{}

/// The next block of a chain that a seat took is in its hand, whole, with the granules that its link tells.
pub fn taken_links_tell_blocks()
    ensures { TakenLinksTellBlocks }
{}

/// A put goes on with its block in hand, and ends where it is queued or in its bin, or gives it, whole each time.
pub fn put_ends_joined_queued_or_whole()
    ensures { PutEndsJoinedQueuedOrWhole }
{}

/// A put's block comes into a bin whole, by the store to its second guard.
pub fn puts_come_into_bins()
    ensures { PutsComeIntoBins }
{}

/// What a put has in hand stays there while others step.
pub fn others_keep_puts()
    ensures { OthersKeepPuts }
{}

/// At guards, a put's steps are steps of the laws of guards.
pub fn puts_step_at_guards()
    ensures { PutsStepAtGuards }
{}

/// While no other seat is at a guard, a put leaves no two blocks in bins beside each other.
pub fn alone_puts_leave_no_two()
    ensures { AlonePutsLeaveNoTwo }
{}

/// A put that is alone finds no mark of a join at its block's sides.
pub fn alone_sides_are_unmarked()
    ensures { AloneSidesAreUnmarked }
{}

/// A seat that is alone at guards wins each block of which it has won the first guard.
pub fn alone_wins_are_won()
    ensures { AloneWinsAreWon }
{}

/// No step of a put that is alone leads it to the queue.
pub fn alone_puts_never_queue()
    ensures { AlonePutsNeverQueue }
{}

/// Each step of a put that is alone keeps calm: it ends with nothing queued and nothing in hand to be joined.
pub fn alone_puts_keep_calm()
    ensures { AlonePutsKeepCalm }
{}

/// Where nothing is queued or in hand to be joined, that stays so while blocks are won for use, cut, and put back.
pub fn steps_keep_rest()
    ensures { StepsKeepRest }
{}

/// So it does through any number of such steps.
pub fn runs_keep_rest()
    ensures { RunsKeepRest }
{}

/// So it does through each step of a scan.
pub fn scans_keep_rest()
    ensures { ScansKeepRest }
{}

/// No two blocks in bins come to be beside each other, but where a block comes into a bin beside one.
pub fn steps_keep_apart()
    ensures { StepsKeepApart }
{}

/// A block that is won has none in a bin beside it, where no two in bins were beside each other.
pub fn won_blocks_stand_apart()
    ensures { WonBlocksStandApart }
{}

/// Nor has either part of it once it is cut.
pub fn cuts_stand_apart()
    ensures { CutsStandApart }
{}

/// Nor when a block comes into a bin that is not beside it.
pub fn rests_stay_apart()
    ensures { RestsStayApart }
{}

/// Calm begins where a pool is at rest and a block is to be joined, and ends at rest where that block is not any more.
pub fn calm_begins_and_ends()
    ensures { CalmBeginsAndEnds }
{}

/// A put of a call that takes whole regions leaves none in a bin.
pub fn puts_leave_no_whole()
    ensures { PutsLeaveNoWhole }
{}

/// In a new pool the queue is empty.
pub fn fresh_queues_are_empty()
    ensures { FreshQueuesAreEmpty }
{}

/// A block in the queue, and one on its way there, meet every part.
pub fn named_queue_stands()
    ensures { NamedQueueStands }
{}

/// A push that stores the queue's head, whatever it is by then, is wrong.
pub fn stored_pushes_are_wrong()
    ensures { StoredPushesAreWrong }
{}
