//! The laws. The functions do nothing: each has a law as its contract.

ghost use Rattle.object_laws.specs.Laws.{StepsKeepObjects, RunsKeepObjects, SlabsHaveTheirLists, GrantEndsOnce};
ghost use Rattle.object_laws.specs.Laws.{FindingNullGivesTheDuty, NotesTellOfHeldObjects, HandsAreListed};
ghost use Rattle.object_laws.specs.Laws.{FreshPoolsHaveNoObjects, NamedObjectsStand};
ghost use Rattle.object_laws.specs.Laws.{ResetsEndGrants, GrantsFoundMayEnd};
ghost use Rattle.object_laws.specs.Wrong.{StrangersFreesAreWrong, StoredPushesAreWrong, LooseJoinsAreWrong};

/// Each step of each seat keeps what holds of objects.
pub fn steps_keep_objects()
    ensures { StepsKeepObjects }
{}

/// So does any number of steps.
pub fn runs_keep_objects()
    ensures { RunsKeepObjects }
{}

/// Each slab's record and its private objects are those of one slab.
pub fn slabs_have_their_lists()
    ensures { SlabsHaveTheirLists }
{}

/// In any run of any number of seats a grant is ended once at most, by a seat that found it held, and is marked
/// nowhere since.
pub fn grant_ends_once()
    ensures { GrantEndsOnce }
{}

/// The push that finds Null is the first since the list was taken, and it has the duty to mail the slab.
pub fn finding_null_gives_the_duty()
    ensures { FindingNullGivesTheDuty }
{}

/// Where an object's mark is the word that was noted, the object is held still, and lies where it did.
pub fn notes_tell_of_held_objects()
    ensures { NotesTellOfHeldObjects }
{}

/// An object in a seat's hand is the one that it is about to list.
pub fn hands_are_listed()
    ensures { HandsAreListed }
{}

/// In a new pool there is no object.
pub fn fresh_pools_have_no_objects()
    ensures { FreshPoolsHaveNoObjects }
{}

/// Private, given back, held and taken objects, and one in a seat's hand, meet every part.
pub fn named_objects_stand()
    ensures { NamedObjectsStand }
{}

/// The exchanges of a reset are those that end a grant.
pub fn resets_end_grants()
    ensures { ResetsEndGrants }
{}

/// A grant's mark that a seat found on an object of its own slab, or outside slabs, may be ended by it.
pub fn grants_found_may_end()
    ensures { GrantsFoundMayEnd }
{}

/// A stranger's free onto the private list is wrong.
pub fn strangers_frees_are_wrong()
    ensures { StrangersFreesAreWrong }
{}

/// A push that stores the public word in place of the exchange is wrong.
pub fn stored_pushes_are_wrong()
    ensures { StoredPushesAreWrong }
{}

/// A join that leaves the last link of the list as it was is wrong.
pub fn loose_joins_are_wrong()
    ensures { LooseJoinsAreWrong }
{}
