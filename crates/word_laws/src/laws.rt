//! The laws. The functions do nothing: each has a law as its contract.

ghost use Rattle.word_laws.specs.Laws.{ActionsActByKind, KindsAreApart, WordsLieInRow, NewRowsAreFresh};
ghost use Rattle.word_laws.specs.Wrong.{StoresAnywhereAreWrong, EarlyLeftsAreWrong};

/// An action leaves of a row of words what it leaves of the words by kind, and finds the same, whatever word it names.
pub fn actions_act_by_kind()
    ensures { ActionsActByKind }
{}

/// Two words of a pool that lie at one place of the row are of one kind and have one index.
pub fn kinds_are_apart()
    ensures { KindsAreApart }
{}

/// A word of a pool lies in the row, and one that is none lies behind its end.
pub fn words_lie_in_row()
    ensures { WordsLieInRow }
{}

/// In the row of a new pool each word is 0.
pub fn new_rows_are_fresh()
    ensures { NewRowsAreFresh }
{}

/// A store that also writes a word that is none is no store on the row.
pub fn stores_anywhere_are_wrong()
    ensures { StoresAnywhereAreWrong }
{}

/// Guards at a block's end that begin one word early lie on those at a block's begin.
pub fn early_lefts_are_wrong()
    ensures { EarlyLeftsAreWrong }
{}
