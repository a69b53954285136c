//! Laws of whole calls. Each is what a function with an empty body ensures.
ghost use Rattle.plain_lists.specs.Counts.{MallocsArePlaced};
ghost use Rattle.plain_lists.specs.Good.{CallsKeepGood};
ghost use Rattle.plain_lists.specs.Reached.{CallsPartEach, ReachedAreGood};

/// A pool of which nothing was asked has good lists, and each call that is served leaves good lists good.
pub fn calls_keep_lists_good()
    ensures { CallsKeepGood }
{}

/// After any calls that are served, one after another, the lists are good.
pub fn reached_lists_are_good()
    ensures { ReachedAreGood }
{}

/// After any calls that are served, one after another, each granule of the region is in exactly one place: a slab, a
/// slab of the slab cache or a free block. No granule outside the region is in any. No free block touches another
/// one: as soon as two would touch, they are one block.
pub fn calls_part_each_granule()
    ensures { CallsPartEach }
{}

/// Where every call is a malloc, where an object lies is a function of counts. Where `m` earlier calls got an object
/// of a class whose slabs have `k`, the next one is object `m mod k` of its slab. An object 0 begins the next slab;
/// any other lies in the slab of the last object 0 of its class. Null comes exactly where an object 0 is due and all
/// 64 slabs were begun.
pub fn mallocs_are_placed()
    ensures { MallocsArePlaced }
{}
