//! The laws. The functions do nothing: each has a law as its contract.

ghost use Rattle.post_laws.specs.Laws.{GivenBackIsNotLost, PushesFindTheirSlab, FindingNullGivesOneDuty};
ghost use Rattle.post_laws.specs.Laws.{LeftSlabsHaveTheirRecord, SwapsGiveOrphans, AdoptersHaveTheOrphan};
ghost use Rattle.post_laws.specs.Laws.{ReturnersHaveTheOrphan, AdoptedListsAreTakenLater, FreshPostsAreGood};
ghost use Rattle.post_laws.specs.Laws.{StepsKeepPost, RunsKeepPost};

use orphan_laws::laws::fresh_pools_have_no_orphans;
use use_laws::laws::fresh_pools_are_good;

/// No object that was given back is lost: it stands once in the lists of its slab, and a slab with something on its
/// public list is on its way to a keeper that takes that list.
pub fn given_back_is_not_lost()
    ensures { GivenBackIsNotLost }
{}

/// The slab of an object in hand is there at each step of a push.
pub fn pushes_find_their_slab()
    ensures { PushesFindTheirSlab }
{}

/// A push that found Null gives its seat a duty that nobody has.
pub fn finding_null_gives_one_duty()
    ensures { FindingNullGivesOneDuty }
{}

/// A slab that is left has its record in its header.
pub fn left_slabs_have_their_record()
    ensures { LeftSlabsHaveTheirRecord }
{}

/// What a swap of orphans gives are orphans.
pub fn swaps_give_orphans()
    ensures { SwapsGiveOrphans }
{}

/// An orphan that a seat is about to adopt is in that seat's hand.
pub fn adopters_have_the_orphan()
    ensures { AdoptersHaveTheOrphan }
{}

/// An orphan that a seat is about to push back is in that seat's hand.
pub fn returners_have_the_orphan()
    ensures { ReturnersHaveTheOrphan }
{}

/// An adopted slab's public list is taken once the slab's next word names the adopter's mailbox.
pub fn adopted_lists_are_taken_later()
    ensures { AdoptedListsAreTakenLater }
{}

/// In a new pool nothing was given back.
pub fn fresh_posts_are_good()
    ensures { FreshPostsAreGood }
{
    fresh_pools_are_good();
    fresh_pools_have_no_orphans();
}

/// Each step of each seat keeps what holds of the pool, its mail and its orphans.
pub fn steps_keep_post()
    ensures { StepsKeepPost }
{}

/// So does any number of steps.
pub fn runs_keep_post()
    ensures { RunsKeepPost }
{}
