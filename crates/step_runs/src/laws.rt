//! The laws. The functions do nothing: each has a law as its contract.

ghost use Rattle.step_runs.specs.Laws.{StepsGoOnward, OtherTurnsLead, SilenceKeepsDesk, RunsAreOrdered};
ghost use Rattle.step_runs.specs.Laws.{StepsLeaveRows, OfficesAreThePools};

use pool_types::Raw;

/// A step on a word makes of where the office is what its position says: the seat takes it where it wins the lock,
/// gives it back where it frees the lock, and else has it as before. A region is passed to the callback with the step
/// that takes its word out, and with no other.
pub fn steps_go_onward()
    ensures { StepsGoOnward }
{}

/// A call that begins leaves the office where it is, as does a turn that answers with no step; the office that is taken
/// out of its slot is in hand, and the one that is put back lies in its slot.
pub fn other_turns_lead()
    ensures { OtherTurnsLead }
{}

/// Between two steps a seat has of the office what its position says.
pub fn silence_keeps_desk<R: Raw>()
    ensures { SilenceKeepsDesk R.out R.faults R.got R.passed }
{}

/// In each state that a pool comes to, all its words are there, each entry is of its own seat, each seat has of the
/// office what its position says, and where the office's lock is free the office lies in its slot.
pub fn runs_are_ordered<R: Raw>()
    ensures { RunsAreOrdered R.out R.faults R.got R.passed }
{}

/// Where no seat has made a step, the pool is as it was made.
pub fn steps_leave_rows<R: Raw>()
    ensures { StepsLeaveRows R.out R.faults R.got R.passed }
{}

/// Wherever the office is, it is that of the pool's own policy and limits.
pub fn offices_are_the_pools<R: Raw>()
    ensures { OfficesAreThePools R.out R.faults R.got R.passed }
{}
