//! The laws. The functions do nothing: each has a law as its contract.

ghost use Rattle.put_moves.specs.Laws.{DrainsTurn, PutsTurn};

/// A turn at the put of a block is steps of the whole.
pub fn puts_turn()
    ensures { PutsTurn }
{}

/// A turn at the emptying of the queue is steps of the whole.
pub fn drains_turn()
    ensures { DrainsTurn }
{}
