//! The laws. The functions do nothing: each has a law as its contract.

ghost use Rattle.valid_runs.specs.Laws.{CallsHoldIndicesInRange, CoursesOfCallsAreValid, LinksOfCallsLead};

use pool_laws::laws::fresh_wholes_are_good;
use pool_types::Raw;

/// In a run of calls each link that a step loads of a block in the cache leads to a block as long as its bin's.
pub fn links_of_calls_lead<R: Raw>()
    ensures { LinksOfCallsLead R.out R.faults R.got R.passed }
{
    fresh_wholes_are_good();
}

/// So each word holds what its kind may hold, and each local carries what it may carry.
pub fn calls_hold_indices_in_range<R: Raw>()
    ensures { CallsHoldIndicesInRange R.out R.faults R.got R.passed }
{
    fresh_wholes_are_good();
}

/// And each step names a word that the pool has, but for one that writes nothing.
pub fn courses_of_calls_are_valid<R: Raw>()
    ensures { CoursesOfCallsAreValid R.out R.faults R.got R.passed }
{
    fresh_wholes_are_good();
}
