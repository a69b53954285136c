//! The laws. The functions do nothing: each has a law as its contract.

ghost use Rattle.object_moves.specs.Laws.{EndsTurn, GrantsTurn, LocatesTurn, LooksTurn, PostsTurn, SmallTurns};

/// A turn that looks a region up is steps of the whole.
pub fn locates_turn()
    ensures { LocatesTurn }
{}

/// So is one that looks at an object.
pub fn looks_turn()
    ensures { LooksTurn }
{}

/// So is one that lists an object.
pub fn posts_turn()
    ensures { PostsTurn }
{}

/// So is one that grants an object of a slab.
pub fn small_turns()
    ensures { SmallTurns }
{}

/// So is one that grants a large object.
pub fn grants_turn()
    ensures { GrantsTurn }
{}

/// So is one that ends a grant.
pub fn ends_turn()
    ensures { EndsTurn }
{}
