//! The laws. The functions do nothing: each has a law as its contract.

ghost use Rattle.slab_moves.specs.Laws.{SlabTurnsAreSteps};

/// A turn at a slab that begins or ends, at the slab cache, at a tick, or at the begin of a large object, is a step of
/// the whole, behind which all that the next position says is there.
pub fn slab_turns_are_steps()
    ensures { SlabTurnsAreSteps }
{}
