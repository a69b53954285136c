//! The laws. The functions do nothing: each has a law as its contract.

ghost use Rattle.office_laws.specs.Laws.{StepsKeepOffice, RunsKeepOffice, OnlyTheOfficeChangesRegions};
ghost use Rattle.office_laws.specs.Laws.{GranulesHaveOneRegion, NumbersNeverReturn, GivenRegionsAreFound};
ghost use Rattle.office_laws.specs.Laws.{ObtainedRegionsAreFresh, FreshOfficesHaveNoRegions, NamedOfficeStands};
ghost use Rattle.office_laws.specs.Laws.{RecordsAtHomeAreThoseOfTheWords, GranulesAreOutsideWhereNoWordHasThem};
ghost use Rattle.office_laws.specs.Laws.{LoadedRegionsStay};
ghost use Rattle.office_laws.specs.Wrong.{EarlyRemovalsAreWrong, WalllessRegionsAreWrong};

/// Each step of each seat keeps what holds of the office and of regions.
pub fn steps_keep_office()
    ensures { StepsKeepOffice }
{}

/// So does any number of steps.
pub fn runs_keep_office()
    ensures { RunsKeepOffice }
{}

/// The words of regions are changed by the one seat that is at the office, and by no other.
pub fn only_the_office_changes_regions()
    ensures { OnlyTheOfficeChangesRegions }
{}

/// No granule and no wall is in two regions.
pub fn granules_have_one_region()
    ensures { GranulesHaveOneRegion }
{}

/// The number of a region that has left is no later region's.
pub fn numbers_never_return()
    ensures { NumbersNeverReturn }
{}

/// The slot that a seat found is that of the region that it gives back.
pub fn given_regions_are_found()
    ensures { GivenRegionsAreFound }
{}

/// A region that the office's contract says it obtained may come: it has a number, a slot and indices of its own.
pub fn obtained_regions_are_fresh()
    ensures { ObtainedRegionsAreFresh }
{}

/// Where nobody is at the office, it has a record of just the regions that the words say.
pub fn records_at_home_are_those_of_the_words()
    ensures { RecordsAtHomeAreThoseOfTheWords }
{}

/// A granule is in no region exactly where no slot's word says that its region has it.
pub fn granules_are_outside_where_no_word_has_them()
    ensures { GranulesAreOutsideWhereNoWordHasThem }
{}

/// What a seat at the office has loaded of regions stays while others step.
pub fn loaded_regions_stay()
    ensures { LoadedRegionsStay }
{}

/// In a new pool no region is.
pub fn fresh_offices_have_no_regions()
    ensures { FreshOfficesHaveNoRegions }
{}

/// A region in its slot, and a seat at the office, meet every part.
pub fn named_office_stands()
    ensures { NamedOfficeStands }
{}

/// A region's word that is cleared before the office is taken is wrong.
pub fn early_removals_are_wrong()
    ensures { EarlyRemovalsAreWrong }
{}

/// A region that comes without a wall is wrong.
pub fn wallless_regions_are_wrong()
    ensures { WalllessRegionsAreWrong }
{}
