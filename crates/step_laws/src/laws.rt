//! The laws. The functions do nothing: each has a law as its contract.

ghost use Rattle.step_laws.specs.Laws.{TurnsElsewhereLeaveTheOffice, RunsKeepOffice, RunsGoOn, LiveRegionsLieApart};

use pool_types::Raw;

/// A seat with nothing to do at the office writes none of the office's words.
pub fn turns_elsewhere_leave_the_office()
    ensures { TurnsElsewhereLeaveTheOffice }
{}

/// Each state that a pool's seats come to, whatever they begin and however their steps lie between each other, is one
/// that the office's own steps lead to: so all holds of it that these keep.
pub fn runs_keep_office<R: Raw>()
    ensures { RunsKeepOffice R.out R.faults R.got R.passed }
{}

/// Between any two states of a run the office makes its own steps: so a number that a region had never returns.
pub fn runs_go_on<R: Raw>()
    ensures { RunsGoOn R.out R.faults R.got R.passed }
{}

/// In each state of a run no granule and no wall is in the regions of two slots, by their words alone, and the office's
/// word names a seat exactly where the seat is at the office.
pub fn live_regions_lie_apart<R: Raw>()
    ensures { LiveRegionsLieApart R.out R.faults R.got R.passed }
{}
