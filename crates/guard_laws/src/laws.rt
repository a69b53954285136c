//! The laws. The functions do nothing: each has a law as its contract.

ghost use Rattle.guard_laws.specs.Laws.{StepsKeepGuards, RunsKeepGuards, BothWordsOrNone, GuardsAreWonByOne};
ghost use Rattle.guard_laws.specs.Laws.{FreeGuardsTellBlocks, OthersLeaveHands, FreshPoolsHaveNoBlocks};
ghost use Rattle.guard_laws.specs.Laws.{StepsKeepNeighbours, RunsKeepNeighbours, NamedGuardsStand};
ghost use Rattle.guard_laws.specs.Laws.{NamedBlocksAreCovered};
ghost use Rattle.guard_laws.specs.Wrong.{OneGuardIsTooFew, UsedIsNotGivenBack};

/// Each step of each seat keeps what holds of blocks and their guards.
pub fn steps_keep_guards()
    ensures { StepsKeepGuards }
{}

/// So does any number of steps.
pub fn runs_keep_guards()
    ensures { RunsKeepGuards }
{}

/// A block is won by both of its guards, whole, or all blocks are as before.
pub fn both_words_or_none()
    ensures { BothWordsOrNone }
{}

/// A guard that is won alone is one seat's.
pub fn guards_are_won_by_one()
    ensures { GuardsAreWonByOne }
{}

/// A guard that says that a block is free tells a block of so many granules, in a bin or being put.
pub fn free_guards_tell_blocks()
    ensures { FreeGuardsTellBlocks }
{}

/// A block in a seat's hand stays there, and so do its guards, while others step.
pub fn others_leave_hands()
    ensures { OthersLeaveHands }
{}

/// A wall or another block stays at each edge of a block, where steps keep the walls beside blocks.
pub fn steps_keep_neighbours()
    ensures { StepsKeepNeighbours }
{}

/// So it does in a run of such steps.
pub fn runs_keep_neighbours()
    ensures { RunsKeepNeighbours }
{}

/// In a new pool no block is.
pub fn fresh_pools_have_no_blocks()
    ensures { FreshPoolsHaveNoBlocks }
{}

/// Blocks in each use, one half won and one half put, meet every part.
pub fn named_guards_stand()
    ensures { NamedGuardsStand }
{}

/// At each of their edges is a wall or another block.
pub fn named_blocks_are_covered()
    ensures { NamedBlocksAreCovered }
{}

/// A seat that takes a block by one guard is wrong.
pub fn one_guard_is_too_few()
    ensures { OneGuardIsTooFew }
{}

/// A guard that is given back as used is wrong.
pub fn used_is_not_given_back()
    ensures { UsedIsNotGivenBack }
{}
