//! The laws. The functions do nothing: each has a law as its contract.

ghost use Rattle.step_ranges.specs.Laws.{WordsHoldIndicesInRange, CourseIsValid};
ghost use Rattle.step_ranges.specs.Named.{NamedWordsAreInRange, NextIndicesAreOut};

use pool_types::Raw;

/// In each state that a pool's seats come to, each word holds what its kind may hold: no mark, no link, no guard and
/// no region's word names an index that the pool has not, and no lock, mark or mailbox a seat.
pub fn words_hold_indices_in_range<R: Raw>()
    ensures { WordsHoldIndicesInRange R.out R.faults R.got R.passed }
{}

/// The word that a seat's next step names is one of its kind, wherever the steps before it came to; but for a step
/// that empties the slot behind the last one, which changes nothing.
pub fn course_is_valid<R: Raw>()
    ensures { CourseIsValid R.out R.faults R.got R.passed }
{}

/// A named pool's words hold the last index that each kind may hold, and are in their ranges.
pub fn named_words_are_in_range()
    ensures { NamedWordsAreInRange }
{}

/// And the index behind it is in none.
pub fn next_indices_are_out()
    ensures { NextIndicesAreOut }
{}
