//! The law of a cut. It is what a function with an empty body ensures.
ghost use Rattle.backend_bins.specs.Laws.{PiecesAreCut};

/// The piece of a block that fits lies in it, a slab's at an even granule, and what is before it and behind it is the
/// rest of the block.
pub fn pieces_are_cut()
    ensures { PiecesAreCut }
{}
