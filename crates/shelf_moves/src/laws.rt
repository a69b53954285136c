//! The laws. The functions do nothing: each has a law as its contract.

ghost use Rattle.shelf_moves.specs.Laws.{ShelfTurnsAreSteps};

/// A turn at a get, an undo, a put or a sweep of the cache is a step of the whole, behind which all that the next
/// position says is there, with the blocks that left the bin in the seat's hand.
pub fn shelf_turns_are_steps()
    ensures { ShelfTurnsAreSteps }
{}
