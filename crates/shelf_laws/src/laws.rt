//! The laws. The functions do nothing: each has a law as its contract.

ghost use Rattle.shelf_laws.specs.Laws.{StepsKeepShelf, RunsKeepShelf, BlocksInBinsAreFree, FreshShelvesAreGood};
ghost use Rattle.shelf_laws.specs.Laws.{NamedShelfStands};
ghost use Rattle.shelf_laws.specs.Wrong.{LostBlocksAreWrong, StrangePutsAreWrong};

use cache_laws::laws::fresh_bins_are_empty;
use use_laws::laws::{fresh_pools_are_good, named_pool_stands};

/// Each step of each seat keeps what holds of the pool and its cache of large blocks.
pub fn steps_keep_shelf()
    ensures { StepsKeepShelf }
{}

/// So does any number of steps.
pub fn runs_keep_shelf()
    ensures { RunsKeepShelf }
{}

/// A block in a bin of the cache is no slab's and no object's, and no unit of an object lies in it.
pub fn blocks_in_bins_are_free()
    ensures { BlocksInBinsAreFree }
{}

/// In a new pool the cache is empty.
pub fn fresh_shelves_are_good()
    ensures { FreshShelvesAreGood }
{
    fresh_pools_are_good();
    fresh_bins_are_empty();
}

/// A block in a bin, and one that a seat is about to put there, meet every part.
pub fn named_shelf_stands()
    ensures { NamedShelfStands }
{
    named_pool_stands();
}

/// A bin that loses its blocks is wrong.
pub fn lost_blocks_are_wrong()
    ensures { LostBlocksAreWrong }
{
    named_shelf_stands();
}

/// A put of a block that is not in the seat's hand is wrong.
pub fn strange_puts_are_wrong()
    ensures { StrangePutsAreWrong }
{
    named_shelf_stands();
}
