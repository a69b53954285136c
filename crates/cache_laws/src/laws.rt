//! The laws. The functions do nothing: each has a law as its contract.

ghost use Rattle.cache_laws.specs.Laws.{StepsKeepCache, RunsKeepCache, EachChangeIsOneStepOfTheRules};
ghost use Rattle.cache_laws.specs.Laws.{WordsAreThoseOfTheStage, BlocksAreOnce, GetsTakeTheNewest};
ghost use Rattle.cache_laws.specs.Laws.{PutsReleaseTheOldest};
ghost use Rattle.cache_laws.specs.Laws.{SweepsReleaseTheOldest};
ghost use Rattle.cache_laws.specs.Laws.{FreshBinsAreEmpty, NamedBinStands, BusyBinsStand};
ghost use Rattle.cache_laws.specs.Laws.{StepsKeepUses, RunsKeepUses, UsedIsTheNumberOfUses, JobsCanStep};
ghost use Rattle.cache_laws.specs.Laws.{FreshUsesAreNone, ClockCountsTicks, TimesAreApart};
ghost use Rattle.cache_laws.specs.Wrong.{ForgetfulGetsAreWrong, IdleCleanupsAreWrong, GreedyCleanupsAreWrong};
ghost use Rattle.cache_laws.specs.Wrong.{LocklessStoresAreWrong};

/// Each step of each seat keeps what holds of bins.
pub fn steps_keep_cache()
    ensures { StepsKeepCache }
{}

/// So does any number of steps.
pub fn runs_keep_cache()
    ensures { RunsKeepCache }
{}

/// A step leaves all bins, or changes the one whose lock its seat has, by one step of the rules.
pub fn each_change_is_one_step_of_the_rules()
    ensures { EachChangeIsOneStepOfTheRules }
{}

/// While a seat has a bin's lock the words are those of its position, and while nobody has it those of the bin.
pub fn words_are_those_of_the_stage()
    ensures { WordsAreThoseOfTheStage }
{}

/// A block is once in its bin, and in no other.
pub fn blocks_are_once()
    ensures { BlocksAreOnce }
{}

/// A get takes the newest block of its bin, if there is one.
pub fn gets_take_the_newest()
    ensures { GetsTakeTheNewest }
{}

/// A put into a full bin releases the oldest block, and into another none.
pub fn puts_release_the_oldest()
    ensures { PutsReleaseTheOldest }
{}

/// A sweep releases the oldest blocks: those that the rules release.
pub fn sweeps_release_the_oldest()
    ensures { SweepsReleaseTheOldest }
{}

/// Each step of each seat keeps what holds of bins and of their uses.
pub fn steps_keep_uses()
    ensures { StepsKeepUses }
{}

/// So does any number of steps.
pub fn runs_keep_uses()
    ensures { RunsKeepUses }
{}

/// A bin whose lock is free says how many blocks of its size are in use: the objects, the blocks that were freed and
/// are not put yet, and the gets that were neither granted a block nor undone.
pub fn used_is_the_number_of_uses()
    ensures { UsedIsTheNumberOfUses }
{}

/// A get may always count one block more, and an undo and a put one less.
pub fn jobs_can_step()
    ensures { JobsCanStep }
{}

/// In a new pool nothing is in use.
pub fn fresh_uses_are_none()
    ensures { FreshUsesAreNone }
{}

/// The clock says how many ticks there were.
pub fn clock_counts_ticks()
    ensures { ClockCountsTicks }
{}

/// Two ticks find different times, where fewer than 2^64 are between them.
pub fn times_are_apart()
    ensures { TimesAreApart }
{}

/// In a new pool each bin is empty.
pub fn fresh_bins_are_empty()
    ensures { FreshBinsAreEmpty }
{}

/// A bin with two blocks, from which a get is taking the newest, meets every part.
pub fn named_bin_stands()
    ensures { NamedBinStands }
{}

/// Three seats at three bins, of which one takes a block, one puts one and one sweeps, meet every part.
pub fn busy_bins_stand()
    ensures { BusyBinsStand }
{}

/// A get that forgets to count the block as in use is wrong.
pub fn forgetful_gets_are_wrong()
    ensures { ForgetfulGetsAreWrong }
{}

/// A cleanup that releases no block is wrong.
pub fn idle_cleanups_are_wrong()
    ensures { IdleCleanupsAreWrong }
{}

/// A cleanup that releases the newest blocks in place of the oldest is wrong.
pub fn greedy_cleanups_are_wrong()
    ensures { GreedyCleanupsAreWrong }
{}

/// A seat that stores a bin's head without its lock is wrong.
pub fn lockless_stores_are_wrong()
    ensures { LocklessStoresAreWrong }
{}
