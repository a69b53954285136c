//! The laws. The functions do nothing: each has a law as its contract.

ghost use Rattle.pool_laws.specs.Laws.{MovesKeepWhole, StepsMove, StepsKeepWhole, RunsKeepWhole, FreshWholesAreGood};
ghost use Rattle.pool_laws.specs.Laws.{WholesHoldTogether, NamedWholeStands};

use free_laws::laws::fresh_spaces_are_good;
use post_laws::laws::fresh_posts_are_good;
use region_laws::laws::{fresh_regions_are_good, named_region_stands};
use shelf_laws::laws::fresh_shelves_are_good;

/// Runs of all groups from one whole to another keep what holds of all groups.
pub fn moves_keep_whole()
    ensures { MovesKeepWhole }
{}

/// Each step of a seat is a run of each group's own steps, to one and the same whole.
pub fn steps_move()
    ensures { StepsMove }
{}

/// So each step of each seat keeps what holds of all groups.
pub fn steps_keep_whole()
    ensures { StepsKeepWhole }
{}

/// And so does any number of steps.
pub fn runs_keep_whole()
    ensures { RunsKeepWhole }
{}

/// All of it holds of a new pool of at most 64 seats and fewer than 2^32 granules.
pub fn fresh_wholes_are_good()
    ensures { FreshWholesAreGood }
{
    fresh_shelves_are_good();
    fresh_regions_are_good();
    fresh_spaces_are_good();
    fresh_posts_are_good();
}

/// Wherever steps of any seats lead from such a pool: objects lie apart and in regions, each granule has one place, no
/// object lies in the cache of large blocks, and none that was given back is lost.
pub fn wholes_hold_together()
    ensures { WholesHoldTogether }
{
    fresh_wholes_are_good();
}

/// Steps of one seat lead from a region that is one block in its hand to a whole with a slab, an object of that, and a
/// block in hand.
pub fn named_whole_stands()
    ensures { NamedWholeStands }
{
    fresh_wholes_are_good();
    named_region_stands();
}
