//! The laws. The functions do nothing: each has a law as its contract.

ghost use Rattle.heap_tasks.specs.Laws.{TurnsChangeHeaps, BeginsLeaveHeaps, TurnsKeepStages, BeginsKeepStages};
ghost use Rattle.heap_tasks.specs.Laws.{FreshStagesFit, TurnsMoveNotes, BeginsNoteNothing, GrantsAreNoted};
ghost use Rattle.heap_tasks.specs.Laws.{EndsAreOfNotes, RowsLeaveNotes, GrantsAreNumbered, TailsAreForgotten};
ghost use Rattle.heap_tasks.specs.Laws.{EndedNotesFit};

/// Each turn, whatever it found, leaves the slabs, the cache of empty slabs and the number of the last grant that the
/// rows of the whole pool leave.
pub fn turns_change_heaps()
    ensures { TurnsChangeHeaps }
{}

/// A call that begins, or a reset, changes none of them.
pub fn begins_leave_heaps()
    ensures { BeginsLeaveHeaps }
{}

/// Each turn, whatever it found, leads to a position at which the call's stage comes.
pub fn turns_keep_stages()
    ensures { TurnsKeepStages }
{}

/// So does each begin of a call or of a reset.
pub fn begins_keep_stages()
    ensures { BeginsKeepStages }
{}

/// A new seat is at such a position.
pub fn fresh_stages_fit()
    ensures { FreshStagesFit }
{}

/// Each turn leaves the notes that the rows of objects leave, but for the newest of them that are forgotten.
pub fn turns_move_notes()
    ensures { TurnsMoveNotes }
{}

/// A call that begins, or a reset, notes nothing.
pub fn begins_note_nothing()
    ensures { BeginsNoteNothing }
{}

/// The objects that the next step grants are noted, and else what a look finds held.
pub fn grants_are_noted()
    ensures { GrantsAreNoted }
{}

/// The object whose grant a call ends is one of those that it noted.
pub fn ends_are_of_notes()
    ensures { EndsAreOfNotes }
{}

/// Where what is noted fits the words, so does the start of the end of that grant.
pub fn ended_notes_fit()
    ensures { EndedNotesFit }
{}

/// The rows of looks and of grants note these, and no other row notes anything.
pub fn rows_leave_notes()
    ensures { RowsLeaveNotes }
{}

/// While numbers of grants are left, a grant's mark and number are those of the rows.
pub fn grants_are_numbered()
    ensures { GrantsAreNumbered }
{}

/// To a tail of a seat's notes steps of objects lead, which forget the others.
pub fn tails_are_forgotten()
    ensures { TailsAreForgotten }
{}
