//! The laws. The functions do nothing: each has a law as its contract.

ghost use Rattle.step_numbers.specs.Laws.{TurnsKeepNumbers};

/// A call comes to grant an object only where a number is left for it, whatever its turns find; and it ends a grant
/// only by the word of a mark that names one. What a local keeps of that by its position is kept by each turn.
pub fn turns_keep_numbers()
    ensures { TurnsKeepNumbers }
{}
