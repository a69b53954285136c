//! Laws that tie a heap's record of a slab to the record of `slab_core`. Each is what a function with an empty body
//! ensures.
ghost use Rattle.heap_slabs.specs.Laws.{UnitsAreOffsets, TakesAsSlabs, FreesAsSlabs, HeadersAreSlabs};

/// The unit of an object is where the object lies in its slab.
pub fn units_are_offsets()
    ensures { UnitsAreOffsets }
{}

/// Taking gives the object that `slab_core` gives and leaves what it leaves, and nothing changes where none is left.
pub fn takes_as_slabs()
    ensures { TakesAsSlabs }
{}

/// Freeing leaves what `slab_core` leaves.
pub fn frees_as_slabs()
    ensures { FreesAsSlabs }
{}

/// The header is `slab_core`'s, and gives the record back.
pub fn headers_are_slabs()
    ensures { HeadersAreSlabs }
{}
