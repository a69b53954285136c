//! The laws. The functions do nothing: each has a law as its contract.

ghost use Rattle.bin_laws.specs.Laws.{StepsKeepBins, RunsKeepBins, BlocksInBinsAreListed, ListsHaveTheirBlocks};
ghost use Rattle.bin_laws.specs.Laws.{WonBlocksAreFound, OthersLeaveLockedLists};
ghost use Rattle.bin_laws.specs.Laws.{LooksKeepScans, LostWinsKeepScans, OthersKeepScans};
ghost use Rattle.bin_laws.specs.Laws.{TakenBlockFits, OthersKeepTakenBlocks, WonBlocksAreOfTheBin};
ghost use Rattle.bin_laws.specs.Laws.{ScansCountBlocks, OthersKeepCounts};
ghost use Rattle.bin_laws.specs.Laws.{FreshBinsAreEmpty, NamedBinStands};
ghost use Rattle.bin_laws.specs.Wrong.{EarlyFreesAreWrong, ListedJoinsAreWrong, ForgottenNotesAreWrong};

/// Each step of each seat keeps what holds of blocks, guards, and bins' locks and lists.
pub fn steps_keep_bins()
    ensures { StepsKeepBins }
{}

/// So does any number of steps.
pub fn runs_keep_bins()
    ensures { RunsKeepBins }
{}

/// A block in a bin is once in the list of its bin, or the seat that has its lock is about to link it.
pub fn blocks_in_bins_are_listed()
    ensures { BlocksInBinsAreListed }
{}

/// A list has blocks of its bin alone: those in the bin, and those won and not yet taken out.
pub fn lists_have_their_blocks()
    ensures { ListsHaveTheirBlocks }
{}

/// A seat that has won a block finds it in its bin's list once it has the lock, wherever its putter was then.
pub fn won_blocks_are_found()
    ensures { WonBlocksAreFound }
{}

/// While a seat has a bin's lock, the bin's list stays, and so do its blocks' lengths.
pub fn others_leave_locked_lists()
    ensures { OthersLeaveLockedLists }
{}

/// A scan's looks keep what it knows: none of the blocks that it passed in this bin fits, unless it noted one.
pub fn looks_keep_scans()
    ensures { LooksKeepScans }
{}

/// A block that was not won is won on, or noted and passed.
pub fn lost_wins_keep_scans()
    ensures { LostWinsKeepScans }
{}

/// What a scan knows stays while others step.
pub fn others_keep_scans()
    ensures { OthersKeepScans }
{}

/// What a scan wins fits what is wanted; then it is in the seat's hand, and at the scan's end it has the piece.
pub fn taken_block_fits()
    ensures { TakenBlockFits }
{}

/// What a scan has won stays in the seat's hand while others step.
pub fn others_keep_taken_blocks()
    ensures { OthersKeepTakenBlocks }
{}

/// What a scan has won is of the bin whose lock it has.
pub fn won_blocks_are_of_the_bin()
    ensures { WonBlocksAreOfTheBin }
{}

/// A scan counts the blocks of each bin's list, once each, and tells the count at its end.
pub fn scans_count_blocks()
    ensures { ScansCountBlocks }
{}

/// What a scan counted stays so while others step.
pub fn others_keep_counts()
    ensures { OthersKeepCounts }
{}

/// In a new pool bins are empty.
pub fn fresh_bins_are_empty()
    ensures { FreshBinsAreEmpty }
{}

/// A block that is won before its putter has linked it meets every part.
pub fn named_bin_stands()
    ensures { NamedBinStands }
{}

/// A putter that frees the lock before it links the block is wrong.
pub fn early_frees_are_wrong()
    ensures { EarlyFreesAreWrong }
{}

/// A join that leaves its neighbour in the list is wrong.
pub fn listed_joins_are_wrong()
    ensures { ListedJoinsAreWrong }
{}

/// A scan that passes a block which another is taking, and does not note it, is wrong.
pub fn forgotten_notes_are_wrong()
    ensures { ForgottenNotesAreWrong }
{}
