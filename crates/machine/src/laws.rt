//! Laws of the lawful moves and of runs. Each is what a function with an empty body ensures.
ghost use Rattle.machine.specs.Callback.{ScriptsAnswerOnce};
ghost use Rattle.machine.specs.Ledger.{HeldAreGrantedLessFreed, HeldAreGotLessFreed};
ghost use Rattle.machine.specs.Stored.{JournalsTellAll};
ghost use Rattle.machine.specs.Laws.{StepsKeepOneHolder, ApartStepsCommute, TotalsFollowSteps, GrantsAreFresh};
ghost use Rattle.machine.specs.Laws.{RunsHaveOneHolder, RunsSumToTheirRegions, RunsExist, LooksMissNone};
ghost use Rattle.machine.specs.Laws.{WrongRunsAreRefused};

/// A step keeps exactly one holder a byte: a byte of the pool has one afterwards, but where the step takes it out of
/// the pool, and a byte that wasn't in the pool has one exactly where the step brings it in.
pub fn steps_keep_one_holder()
    ensures { StepsKeepOneHolder }
{}

/// Two steps whose moves are over ranges that are apart commute: each move can be made after the other, and it is all
/// one which is made first.
pub fn apart_steps_commute()
    ensures { ApartStepsCommute }
{}

/// The totals follow a step: the count of a kind of holder loses the bytes that leave it and gains those that come to
/// it.
pub fn totals_follow_steps()
    ensures { TotalsFollowSteps }
{}

/// An object that is granted was no object's: its bytes were rest, private or in the hand of the seat that grants, and
/// its grant has the seat's next number.
pub fn grants_are_fresh()
    ensures { GrantsAreFresh }
{}

/// In a run each byte of each live region has exactly one holder, at any time, and no other byte has one.
pub fn runs_have_one_holder()
    ensures { RunsHaveOneHolder }
{}

/// In a run the totals of all kinds of holders sum to the bytes of the live regions, at any time: each region has as
/// many bytes with a holder as its record says.
pub fn runs_sum_to_their_regions()
    ensures { RunsSumToTheirRegions }
{}

/// There are runs: one in which an object is granted, and one in which it is refused.
pub fn runs_exist()
    ensures { RunsExist }
{}

/// As long as no two calls of the pool were open at once, a scan misses no room: where no block fits in the lists of
/// the bins that it looks at, no bytes in a row that are all in bins fit. So a null for want of a fitting block isn't
/// given too early.
pub fn looks_miss_none()
    ensures { LooksMissNone }
{}

/// In a run of a pool that has not ended, the objects that are held are those that the run granted, less those that it
/// freed, in calls and in resets: by place, bytes and grant. So an object is freed whole.
pub fn held_are_granted_less_freed()
    ensures { HeldAreGrantedLessFreed }
{}

/// Where no call is open, the objects that are held are those that answers said were got, less those that were freed.
/// A realloc whose object stayed got none anew.
pub fn held_are_got_less_freed()
    ensures { HeldAreGotLessFreed }
{}

/// The journal of a run tells all that its turns moved, which slabs went from one keeper to another, and all answers, in
/// their order. An entry has at most four parts.
pub fn journals_tell_all()
    ensures { JournalsTellAll }
{}

/// Short runs of wrong allocators are none: each breaks one rule, at its last event. A scan passes over a block; a
/// region comes too small, unwanted, before a look or not from the callback; the callback is asked by a call that may
/// not, or a failure of it is made up; a slab begins beside one with objects to give or beside an orphan; an object is
/// of another class than its request, or is cut out of bins though the cache has a block for it; a reset or an answer
/// leaves blocks that adjoin, a block in the queue or a region to be given back; a realloc moves before it looks; a
/// question moves; a null leaves a slab in the slab cache; a region without a granule leaves; the cache's clock passes
/// over numbers or is not heeded; and at the pool's end a region is kept that its callback would take back.
pub fn wrong_runs_are_refused()
    ensures { WrongRunsAreRefused }
{}

/// A callback with scripts answers once: what it answers, and what it is afterwards, is settled by what it was. So
/// what a run says of such a callback is settled too. Of a put the region has to be out once.
pub fn scripts_answer_once()
    ensures { ScriptsAnswerOnce }
{}
