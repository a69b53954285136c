//! The laws. The functions do nothing: each has a law as its contract.

ghost use Rattle.slab_places.specs.Laws.{BeginsKeepSlabs, FreshSlabsLie, SilenceKeepsSlabs, TurnsKeepSlabs};

/// A new local has no slab in its cache, and is to begin none.
pub fn fresh_slabs_lie()
    ensures { FreshSlabsLie }
{}

/// A step on a word keeps that cached slabs, and those that begin, are even, and that a large object is to begin in its
/// block.
pub fn turns_keep_slabs()
    ensures { TurnsKeepSlabs }
{}

/// So does a call that begins.
pub fn begins_keep_slabs()
    ensures { BeginsKeepSlabs }
{}

/// And a turn without a step on a word.
pub fn silence_keeps_slabs()
    ensures { SilenceKeepsSlabs }
{}
