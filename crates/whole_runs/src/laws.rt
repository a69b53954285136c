//! The laws. The functions do nothing: each has a law as its contract.

ghost use Rattle.whole_runs.specs.Laws.{RunsAreGood, RunsHoldTogether, SeatsStandBetween};

use pool_laws::laws::fresh_wholes_are_good;
use pool_types::Raw;

/// Each state that a pool comes to by calls of its seats, in any order of their steps, is one that the whole's own
/// steps lead to, and each seat is tied to it.
pub fn runs_are_good<R: Raw>()
    ensures { RunsAreGood R.out R.faults R.got R.passed }
{
    fresh_wholes_are_good();
}

/// So all holds of it that the joined laws say.
pub fn runs_hold_together<R: Raw>()
    ensures { RunsHoldTogether R.out R.faults R.got R.passed }
{
    fresh_wholes_are_good();
}

/// Between any two steps the words are those of a good whole, to which the seat is tied that comes next, wherever its
/// call has come without a step.
pub fn seats_stand_between<R: Raw>()
    ensures { SeatsStandBetween R.out R.faults R.got R.passed }
{
    fresh_wholes_are_good();
}
