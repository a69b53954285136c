//! The laws. The functions do nothing: each has a law as its contract.

ghost use Rattle.step_fits.specs.Laws.{TurnsKeepFits, BeginsKeepFits, ResetsKeepFits, FreshLocalsFit};
ghost use Rattle.step_fits.specs.Laws.{GrantsAreInKeptSlabs, GrantsHaveNumbers, KeptSlabsAreOfThePool};
ghost use Rattle.step_fits.specs.Laws.{StagesOfMailboxes, EndedSlabsHoldNothing, CachedSlabsHaveRoom, GetsAreOfBins};
ghost use Rattle.step_fits.specs.Laws.{SweepsAreOfBins, NothingLiesAsideElsewhere, SeatsOfPoolsFit};

/// Each turn keeps what a local says by itself, whatever it found, where a slab that begins is one that the heap does
/// not keep.
pub fn turns_keep_fits()
    ensures { TurnsKeepFits }
{}

/// So does each call that begins, and one that is refused.
pub fn begins_keep_fits()
    ensures { BeginsKeepFits }
{}

/// So does each reset that begins, and one that is refused.
pub fn resets_keep_fits()
    ensures { ResetsKeepFits }
{}

/// A new local of a seat of a pool fits.
pub fn fresh_locals_fit()
    ensures { FreshLocalsFit }
{}

/// A small object is granted in a slab that the heap keeps, of the class that is served, and is the next one of that.
/// So it is where each slab that was begun was new.
pub fn grants_are_in_kept_slabs()
    ensures { GrantsAreInKeptSlabs }
{}

/// A number is left for each grant that is made.
pub fn grants_have_numbers()
    ensures { GrantsHaveNumbers }
{}

/// What a heap keeps are slabs of the pool, each of one of its classes.
pub fn kept_slabs_are_of_the_pool()
    ensures { KeptSlabsAreOfThePool }
{}

/// A mailbox is taken by a get, by a heap that leaves, and by one that is reset.
pub fn stages_of_mailboxes()
    ensures { StagesOfMailboxes }
{}

/// A slab that ends has no held object, but in a reset.
pub fn ended_slabs_hold_nothing()
    ensures { EndedSlabsHoldNothing }
{}

/// The slab cache has room for each slab that is cached.
pub fn cached_slabs_have_room()
    ensures { CachedSlabsHaveRoom }
{}

/// A get of a large block, and its undoing, are at a bin of the cache.
pub fn gets_are_of_bins()
    ensures { GetsAreOfBins }
{}

/// A cleanup is at a bin of the cache.
pub fn sweeps_are_of_bins()
    ensures { SweepsAreOfBins }
{}

/// Orphans lie aside only while some are adopted or pushed back.
pub fn nothing_lies_aside_elsewhere()
    ensures { NothingLiesAsideElsewhere }
{}

/// The seats of a pool that can be made fit.
pub fn seats_of_pools_fit()
    ensures { SeatsOfPoolsFit }
{}
