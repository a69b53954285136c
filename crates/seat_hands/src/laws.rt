//! The laws. The functions do nothing: each has a law as its contract.

ghost use Rattle.seat_hands.specs.Laws.{HandsLie, EachIsOfHands, OthersAreNone, OutsideIsNone};
ghost use Rattle.seat_hands.specs.Laws.{HandsStay, HandsStandElsewhere, HandsCome, HandsLeave};
ghost use Rattle.seat_hands.specs.Laws.{HandsSplit, HandsMerge, HandsForget, HandsAreRead};

/// What is in hand has some granules, below the end of all indices.
pub fn hands_lie()
    ensures { HandsLie }
{}

/// Each of the blocks in hand lies there, and is left of no chain that the seat took.
pub fn each_is_of_hands()
    ensures { EachIsOfHands }
{}

/// In a block that is not the seat's none of its hand begins.
pub fn others_are_none()
    ensures { OthersAreNone }
{}

/// Outside of all blocks none of a seat's hand begins.
pub fn outside_is_none()
    ensures { OutsideIsNone }
{}

/// Where blocks in hand stay where they are, the hands do.
pub fn hands_stay()
    ensures { HandsStay }
{}

/// Blocks in hand stay where they are, if only granules of none of them change.
pub fn hands_stand_elsewhere()
    ensures { HandsStandElsewhere }
{}

/// A block that comes is in hand beside the others.
pub fn hands_come()
    ensures { HandsCome }
{}

/// A block that leaves the hand leaves the others there.
pub fn hands_leave()
    ensures { HandsLeave }
{}

/// A block that is cut is in hand as two.
pub fn hands_split()
    ensures { HandsSplit }
{}

/// Two blocks that are joined are in hand as one.
pub fn hands_merge()
    ensures { HandsMerge }
{}

/// A block of which the local forgets how long it is stays in hand.
pub fn hands_forget()
    ensures { HandsForget }
{}

/// The first block of what the seat took of the queue is in hand by itself once its link is read.
pub fn hands_are_read()
    ensures { HandsAreRead }
{}
