//! What holds of two steps of a bin, one after the other. The functions do nothing: each has a law as its
//! contract.

ghost use Rattle.cache_ages.specs.Laws.{GetTakesWhatWasPut, UndoRestoresUsed};

/// A get right after a put takes the item that was put, and leaves the items from before the put: their
/// first 63, where they were 64.
pub fn get_takes_what_was_put()
    ensures { GetTakesWhatWasPut }
{}

/// An undo gives back what a get that missed counted as used, and leaves the rest of what that get did.
pub fn undo_restores_used()
    ensures { UndoRestoresUsed }
{}
