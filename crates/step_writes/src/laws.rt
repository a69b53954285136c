//! The laws. The functions do nothing: each has a law as its contract.

ghost use Rattle.step_writes.specs.Laws.{EachStepWritesItsKind, JobsWriteTheirKinds, OtherKindsStand};
ghost use Rattle.step_writes.specs.Laws.{OtherWordsStand, OtherJobsLeaveKinds};

/// At every position the next step loads, takes or gives the office, rests, or writes a word of the position's kind.
pub fn each_step_writes_its_kind()
    ensures { EachStepWritesItsKind }
{}

/// What a position writes is of one of the kinds that its job writes.
pub fn jobs_write_their_kinds()
    ensures { JobsWriteTheirKinds }
{}

/// An action leaves each word but the one that it writes.
pub fn other_words_stand()
    ensures { OtherWordsStand }
{}

/// An action leaves the words of each kind that it does not write.
pub fn other_kinds_stand()
    ensures { OtherKindsStand }
{}

/// A step writes no word of the kinds that its job does not write.
pub fn other_jobs_leave_kinds()
    ensures { OtherJobsLeaveKinds }
{}
