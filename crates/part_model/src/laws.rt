//! Laws of moves and of totals. Each is what a function with an empty body ensures.
ghost use Rattle.part_model.specs.Laws.{MovesAnswerOnce, MovesKeepOneHolder, ApartMovesCommute, TotalsFollowMoves, RegionsFollowMoves, TotalsSum};

/// What a move answers is determined by where the bytes are and by the move: there is one first byte in its way, or none.
/// Want of memory alone comes besides.
pub fn moves_answer_once()
    ensures { MovesAnswerOnce }
{}

/// A lawful move keeps exactly one holder a byte: a byte of the pool has one afterwards, but where the move takes it out
/// of the pool, and a byte that wasn't in the pool has one exactly where the move brings it in.
pub fn moves_keep_one_holder()
    ensures { MovesKeepOneHolder }
{}

/// Two moves over ranges that are apart commute: each can be made after the other exactly where it can be made before
/// it, and it is all one which is made first.
pub fn apart_moves_commute()
    ensures { ApartMovesCommute }
{}

/// The totals follow a lawful move: the count of a kind of holder loses the bytes that leave it and gains those that
/// come to it.
pub fn totals_follow_moves()
    ensures { TotalsFollowMoves }
{}

/// The live regions follow a lawful move: each has the bytes that it had, without those that the move takes out of the
/// pool and with those that it brings in, and their number follows.
pub fn regions_follow_moves()
    ensures { RegionsFollowMoves }
{}

/// The bytes at all kinds of holders sum to the bytes of the live regions.
pub fn totals_sum()
    ensures { TotalsSum }
{}
