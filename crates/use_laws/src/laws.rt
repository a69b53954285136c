//! The laws. The functions do nothing: each has a law as its contract.

ghost use Rattle.use_laws.specs.Laws.{StepsKeepPool, RunsKeepPool, ObjectsLieApart, ObjectsLieInBlocks};
ghost use Rattle.use_laws.specs.Laws.{BlocksInHandAreBare, BlocksHaveOnePurpose, FreshPoolsAreGood, NamedPoolStands};
ghost use Rattle.use_laws.specs.Laws.{OthersLeaveBlocksInHand, OtherStepsLeaveTheShelf};
ghost use Rattle.use_laws.specs.Wrong.{SlabsOverBlocksAreWrong, SharedBlocksAreWrong, SeizedBlocksAreWrong};

use guard_laws::laws::fresh_pools_have_no_blocks;
use object_laws::laws::fresh_pools_have_no_objects;
use slab_laws::laws::fresh_pools_have_no_slabs;

/// Each step of each seat keeps what holds of blocks, slabs and objects, and of what each block is used for.
pub fn steps_keep_pool()
    ensures { StepsKeepPool }
{}

/// So does any number of steps.
pub fn runs_keep_pool()
    ensures { RunsKeepPool }
{}

/// No other seat takes a block from a seat's hand.
pub fn others_leave_blocks_in_hand()
    ensures { OthersLeaveBlocksInHand }
{}

/// What lies in the cache of large blocks stays there, but where a step puts a block there or takes one.
pub fn other_steps_leave_the_shelf()
    ensures { OtherStepsLeaveTheShelf }
{}

/// No unit is of two objects.
pub fn objects_lie_apart()
    ensures { ObjectsLieApart }
{}

/// Each unit of an object lies in a block at rest: in none that is in a bin, in a seat's hand, or queued.
pub fn objects_lie_in_blocks()
    ensures { ObjectsLieInBlocks }
{}

/// In a block that is not at rest no slab begins, and no object.
pub fn blocks_in_hand_are_bare()
    ensures { BlocksInHandAreBare }
{}

/// A block at rest is a slab's, one large object's, or in the cache.
pub fn blocks_have_one_purpose()
    ensures { BlocksHaveOnePurpose }
{}

/// In a new pool no block is.
pub fn fresh_pools_are_good()
    ensures { FreshPoolsAreGood }
{
    fresh_pools_have_no_blocks();
    fresh_pools_have_no_slabs();
    fresh_pools_have_no_objects();
}

/// Steps of one seat lead from a new pool to one with a slab, a cached slab, a large object, a block in the cache, one
/// in a hand and one in a bin.
pub fn named_pool_stands()
    ensures { NamedPoolStands }
{
    fresh_pools_are_good();
}

/// A slab that begins in a block at rest is wrong.
pub fn slabs_over_blocks_are_wrong()
    ensures { SlabsOverBlocksAreWrong }
{
    named_pool_stands();
}

/// A second object in a large object's block is wrong.
pub fn shared_blocks_are_wrong()
    ensures { SharedBlocksAreWrong }
{
    named_pool_stands();
}

/// A block that comes into a hand while an object lies there is wrong.
pub fn seized_blocks_are_wrong()
    ensures { SeizedBlocksAreWrong }
{
    named_pool_stands();
}
