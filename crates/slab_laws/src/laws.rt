//! The laws. The functions do nothing: each has a law as its contract.

ghost use Rattle.slab_laws.specs.Laws.{OneSlabByItsLists, BegunSlabsHaveNoObjects, ObjectsBeginInTheirSlab};
ghost use Rattle.slab_laws.specs.Laws.{StepsKeepSlabs, RunsKeepSlabs, HeadersGiveRecords, FreshPoolsHaveNoSlabs};
ghost use Rattle.slab_laws.specs.Laws.{NamedSlabsStand};
ghost use Rattle.slab_laws.specs.Wrong.{HeadlessTakesAreWrong, UncountedJoinsAreWrong};
ghost use Rattle.slab_laws.specs.Wrong.{HeaderlessLeavingsAreWrong, SilentUncachingsAreWrong};

/// A slab's record and its private objects say what taking, freeing and joining give and leave, and its header tells
/// the record.
pub fn one_slab_by_its_lists()
    ensures { OneSlabByItsLists }
{}

/// A slab of which nothing was handed out has no private object.
pub fn begun_slabs_have_no_objects()
    ensures { BegunSlabsHaveNoObjects }
{}

/// The objects of a slab begin in it, each at a unit of its own.
pub fn objects_begin_in_their_slab()
    ensures { ObjectsBeginInTheirSlab }
{}

/// Each step of each seat keeps the book, the records, the words of kinds and headers, and the caches as they fit.
pub fn steps_keep_slabs()
    ensures { StepsKeepSlabs }
{}

/// So does any number of steps.
pub fn runs_keep_slabs()
    ensures { RunsKeepSlabs }
{}

/// The header of a slab that nobody keeps gives the record that its last keeper had.
pub fn headers_give_records()
    ensures { HeadersGiveRecords }
{}

/// In a new pool there is no slab.
pub fn fresh_pools_have_no_slabs()
    ensures { FreshPoolsHaveNoSlabs }
{}

/// A slab in use, an orphan, a cached slab and a large block meet every part.
pub fn named_slabs_stand()
    ensures { NamedSlabsStand }
{}

/// A take that forgets the private objects behind the newest is wrong.
pub fn headless_takes_are_wrong()
    ensures { HeadlessTakesAreWrong }
{}

/// A join that does not lower the count is wrong.
pub fn uncounted_joins_are_wrong()
    ensures { UncountedJoinsAreWrong }
{}

/// A slab that is left without a header is nobody's to adopt.
pub fn headerless_leavings_are_wrong()
    ensures { HeaderlessLeavingsAreWrong }
{}

/// A slab that leaves the cache and says still that it is cached is wrong.
pub fn silent_uncachings_are_wrong()
    ensures { SilentUncachingsAreWrong }
{}
