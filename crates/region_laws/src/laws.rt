//! The laws. The functions do nothing: each has a law as its contract.

ghost use Rattle.region_laws.specs.Laws.{StepsKeepRegions, RunsKeepRegions, BlocksLieInOneRegion};
ghost use Rattle.region_laws.specs.Laws.{ObjectsLieInRegions, FreshRegionsAreGood};
ghost use Rattle.region_laws.specs.Laws.{NamedRegionStands};
ghost use Rattle.region_laws.specs.Wrong.{EarlyRemovalsAreWrong};

use office_laws::laws::fresh_offices_have_no_regions;
use use_laws::laws::fresh_pools_are_good;

/// Each step of each seat keeps what holds of the pool and its regions.
pub fn steps_keep_regions()
    ensures { StepsKeepRegions }
{}

/// So does any number of steps.
pub fn runs_keep_regions()
    ensures { RunsKeepRegions }
{}

/// Each block lies, whole, in one region that the office's words say.
pub fn blocks_lie_in_one_region()
    ensures { BlocksLieInOneRegion }
{}

/// Each unit of an object lies in such a region.
pub fn objects_lie_in_regions()
    ensures { ObjectsLieInRegions }
{}

/// In a new pool there is no region.
pub fn fresh_regions_are_good()
    ensures { FreshRegionsAreGood }
{
    fresh_pools_are_good();
    fresh_offices_have_no_regions();
}

/// A region that is one block in a seat's hand meets every part.
pub fn named_region_stands()
    ensures { NamedRegionStands }
{
    fresh_pools_are_good();
}

/// A region that goes while its granules are in blocks is wrong.
pub fn early_removals_are_wrong()
    ensures { EarlyRemovalsAreWrong }
{
    named_region_stands();
}
