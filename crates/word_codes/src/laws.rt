//! Laws of the words: what is written reads back as it was, for every value in its range. Each is what a
//! function with an empty body ensures.

ghost use Rattle.word_codes.specs.Laws.{MarksReadBack, KindsReadBack, OwnsReadBack, PublicsReadBack, NextsReadBack, GuardsReadBack, LinksReadBack, QueueLinksReadBack, LocksReadBack, RegionsReadBack, OffsetsReadBack, CappedIs};

/// The mark of a seat below 64, of a number below 2^55, of a unit below 2^61.
pub fn marks_read_back()
    ensures { MarksReadBack }
{}

/// What begins at a granule: any class of a byte, a first granule below 2^16, granules below 2^45.
pub fn kinds_read_back()
    ensures { KindsReadBack }
{}

/// A slab's keeper.
pub fn owns_read_back()
    ensures { OwnsReadBack }
{}

/// What was given back to a slab: any unit but the last two numbers of 64 bits.
pub fn publics_read_back()
    ensures { PublicsReadBack }
{}

/// A slab's mailbox, and a link to a slab below 2^63 - 1.
pub fn nexts_read_back()
    ensures { NextsReadBack }
{}

/// A guard: any number of granules but the last three of 64 bits.
pub fn guards_read_back()
    ensures { GuardsReadBack }
{}

/// A link: any item but the last number of 64 bits.
pub fn links_read_back()
    ensures { LinksReadBack }
{}

/// A block in the queue: a block below 2^32 - 1, granules below 2^32.
pub fn queue_links_read_back()
    ensures { QueueLinksReadBack }
{}

/// The seat that has a lock.
pub fn locks_read_back()
    ensures { LocksReadBack }
{}

/// A region of a number below 2^22, with first granule and granules below 2^14, and less than 8192 bytes of waste.
pub fn regions_read_back()
    ensures { RegionsReadBack }
{}

/// The unit at an offset begins at that offset, where the region's fields are in their ranges and the offset is below
/// 2^40.
pub fn offsets_read_back()
    ensures { OffsetsReadBack }
{}

/// A number of 64 bits is kept as it is.
pub fn capped_is()
    ensures { CappedIs }
{}
