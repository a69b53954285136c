//! The laws. The functions do nothing: each has a law as its contract.

ghost use Rattle.orphan_laws.specs.Laws.{StepsKeepOrphans, RunsKeepOrphans, SlabHasOneKeeper, OwnNamesTheKeeper};
ghost use Rattle.orphan_laws.specs.Laws.{AdoptersReadTheRecord, SwapTakesTheOrphans, SparesHaveRoom};
ghost use Rattle.orphan_laws.specs.Laws.{FreshPoolsHaveNoOrphans, NamedOrphansStand};
ghost use Rattle.orphan_laws.specs.Wrong.{OwedLeavingsAreWrong, TakesBeforeSettlingAreWrong, SecondReturnsAreWrong};

/// Each step of each seat keeps what holds of orphans.
pub fn steps_keep_orphans()
    ensures { StepsKeepOrphans }
{}

/// So does any number of steps.
pub fn runs_keep_orphans()
    ensures { RunsKeepOrphans }
{}

/// In any run of any number of seats each slab is in one seat's heap, in the chain of its class, or in the hand of one
/// seat that took it, and its own word says which.
pub fn slab_has_one_keeper()
    ensures { SlabHasOneKeeper }
{}

/// The own word of a slab names no seat but its keeper.
pub fn own_names_the_keeper()
    ensures { OwnNamesTheKeeper }
{}

/// An adopter has the record that the slab's last keeper had.
pub fn adopters_read_the_record()
    ensures { AdoptersReadTheRecord }
{}

/// The swap of a chain's head gives the orphans of the class, all of them and each once.
pub fn swap_takes_the_orphans()
    ensures { SwapTakesTheOrphans }
{}

/// A seat has room for each orphan that it puts aside.
pub fn spares_have_room()
    ensures { SparesHaveRoom }
{}

/// In a new pool there are no orphans.
pub fn fresh_pools_have_no_orphans()
    ensures { FreshPoolsHaveNoOrphans }
{}

/// A slab that is about to be left, an orphan, one that was put aside and one that is pushed back meet every part.
pub fn named_orphans_stand()
    ensures { NamedOrphansStand }
{}

/// A keeper that leaves a slab whose mailing is owed is wrong.
pub fn owed_leavings_are_wrong()
    ensures { OwedLeavingsAreWrong }
{}

/// An adopter that takes the public list before it writes the next word is wrong.
pub fn takes_before_settling_are_wrong()
    ensures { TakesBeforeSettlingAreWrong }
{}

/// A slab that is pushed back twice is wrong.
pub fn second_returns_are_wrong()
    ensures { SecondReturnsAreWrong }
{}
