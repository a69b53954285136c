//! The laws. The functions do nothing: each has a law as its contract.

ghost use Rattle.turn_suits.specs.Laws.{TurnsSuit};

/// In a good whole all that a turn rests on is so of each seat that is tied to its local.
pub fn turns_suit()
    ensures { TurnsSuit }
{}
