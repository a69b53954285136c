//! The laws. The functions do nothing: each has a law as its contract.

ghost use Rattle.step_grants.specs.Laws.{NamedGrantsStand, NumbersStayBelow, GrantsAreAtOnePlace, GrantsNeverReturn};
ghost use Rattle.step_grants.specs.Laws.{GrantsOfARunAreDistinct};

use pool_types::Raw;

/// Grants of two seats at three units, beside an object in a list and one in a hand, are apart.
pub fn named_grants_stand()
    ensures { NamedGrantsStand }
{}

/// In each state that a pool's seats come to, whatever they begin and however their steps lie between each other, no
/// seat's numbers are beyond the last one, and where its next step grants one is left.
pub fn numbers_stay_below<R: Raw>()
    ensures { NumbersStayBelow R.out R.faults R.got R.passed }
{}

/// In each state no two units' marks name one grant; and each grant that a mark names is of a seat of the pool, with
/// one of the numbers that the seat has come to.
pub fn grants_are_at_one_place<R: Raw>()
    ensures { GrantsAreAtOnePlace R.out R.faults R.got R.passed }
{}

/// Between any two states of a run a grant stays at its unit or leaves it for good: none returns, and none goes from
/// one unit to another.
pub fn grants_never_return<R: Raw>()
    ensures { GrantsNeverReturn R.out R.faults R.got R.passed }
{}

/// In each state the grants of all seats are different, each seat's numbered from 1 on in order. Each that a seat
/// ended was granted before, is ended once among all seats, and is named by no mark any more.
pub fn grants_of_a_run_are_distinct<R: Raw>()
    ensures { GrantsOfARunAreDistinct R.out R.faults R.got R.passed }
{}
