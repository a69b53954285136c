//! The laws. The functions do nothing: each has a law as its contract.

ghost use Rattle.hand_blocks.specs.Laws.{TurnsChangeHands, TurnsKeepHandFits, BeginsLeaveHands, IdleHandsAreEmpty};
ghost use Rattle.hand_blocks.specs.Laws.{FreshHandsAreEmpty, ChangesCountBlocks};

/// Where a local and what it finds fit, each turn changes what is in hand as is said of its position, block by block.
pub fn turns_change_hands()
    ensures { TurnsChangeHands }
{}

/// What a local says of its call where blocks are in hand stays true with each turn.
pub fn turns_keep_hand_fits()
    ensures { TurnsKeepHandFits }
{}

/// A call or a reset begins with nothing in hand, and with nothing after.
pub fn begins_leave_hands()
    ensures { BeginsLeaveHands }
{}

/// A seat without a call has nothing in hand, nor has one whose call was answered.
pub fn idle_hands_are_empty()
    ensures { IdleHandsAreEmpty }
{}

/// A fresh local has nothing in hand.
pub fn fresh_hands_are_empty()
    ensures { FreshHandsAreEmpty }
{}

/// At each granule as many blocks in hand begin as before, but for those that a change loses and gains.
pub fn changes_count_blocks()
    ensures { ChangesCountBlocks }
{}
