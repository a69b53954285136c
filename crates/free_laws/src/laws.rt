//! The laws. The functions do nothing: each has a law as its contract.

ghost use Rattle.free_laws.specs.Laws.{StepsKeepFree, RunsKeepFree, GranulesHaveOnePlace, BlocksAreOneThing};
ghost use Rattle.free_laws.specs.Laws.{FreshSpacesAreGood, NamedSpaceStands};
ghost use Rattle.free_laws.specs.Wrong.{UnlistedPutsAreWrong};

use bin_laws::laws::fresh_bins_are_empty;
use queue_laws::laws::fresh_queues_are_empty;
use use_laws::laws::fresh_pools_are_good;

/// Each step of each seat keeps what holds of blocks in bins, queued, in hands, and at rest with one purpose.
pub fn steps_keep_free()
    ensures { StepsKeepFree }
{}

/// So does any number of steps.
pub fn runs_keep_free()
    ensures { RunsKeepFree }
{}

/// Each granule lies outside of all regions, or in one block, and each block is one thing.
pub fn granules_have_one_place()
    ensures { GranulesHaveOnePlace }
{}

/// A block is at rest for one purpose, in a bin, queued, or in one seat's hand, and nothing else.
pub fn blocks_are_one_thing()
    ensures { BlocksAreOneThing }
{}

/// In a new pool no block is.
pub fn fresh_spaces_are_good()
    ensures { FreshSpacesAreGood }
{
    fresh_pools_are_good();
    fresh_bins_are_empty();
    fresh_queues_are_empty();
}

/// Steps of one seat lead from a new pool to one with a block in a bin, which the seat is about to link.
pub fn named_space_stands()
    ensures { NamedSpaceStands }
{
    fresh_spaces_are_good();
}

/// A block that comes into a bin while no seat is to link it is wrong.
pub fn unlisted_puts_are_wrong()
    ensures { UnlistedPutsAreWrong }
{
    named_space_stands();
}
