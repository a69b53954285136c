//! Winning both guards of a free block, in either order.

ghost use Rattle.std.specs.Prelude.{◌≡◌};
ghost use Rattle.guards.specs.Win.{guard_at, other_side, taken_word, win_course, win_learn};

use pool_words::{Action, Word};
use word_codes::Guard;

/// Which guard of a block: the one at its begin, or the one behind its end.
#[derive(Clone, Copy)]
pub enum Side {
    Begin,
    End,
}

/// What a won guard says: the block is in use, or is being joined.
#[derive(Clone, Copy)]
pub enum Taking {
    ForUse,
    ToJoin,
}

/// What a win is about: where the block begins and ends, its granules, which guard is won first, and what for.
#[derive(Clone, Copy)]
pub struct WinCall {
    pub begin: u64,
    pub end: u64,
    pub granules: u64,
    pub first: Side,
    pub taking: Taking,
}

#[derive(Clone, Copy)]
pub enum WinAt {
    /// The first guard is to be won.
    First,

    /// The second one is.
    Second,

    /// The second was lost, and the first is given back.
    Back,
}

#[derive(Clone, Copy)]
pub enum WinNext {
    Goes(WinAt),

    /// Both guards are won.
    Won,

    /// The first guard was lost; this is what it said.
    NotWon(u64),

    /// The second guard was lost, and the first says again what it said before.
    GivenBack,
}

impl Side {
    /// The other guard.
    fn other(self) -> Side
        ensures { result ≡ other_side self }
    {
        match self {
            Side::Begin => Side::End,
            Side::End => Side::Begin,
        }
    }
}

impl Taking {
    /// The word of a guard that was won.
    pub fn word(self) -> u64
        ensures { result ≡ taken_word self }
    {
        match self {
            Taking::ForUse => Guard::Used.word(),
            Taking::ToJoin => Guard::Coalescing.word(),
        }
    }
}

impl WinCall {
    /// The word of a guard.
    fn guard(self, side: Side) -> Word
        ensures { result ≡ guard_at self side }
    {
        match side {
            Side::Begin => Word::Size(self.begin),
            Side::End => Word::Left(self.end),
        }
    }
}

impl WinAt {
    pub fn next(self, call: WinCall) -> Action
        ensures { result ≡ win_course call self }
    {
        let free = Guard::Free(call.granules).word();
        match self {
            WinAt::First => Action::Exchange {
                word: call.guard(call.first),
                from: free,
                to: call.taking.word(),
            },
            WinAt::Second => Action::Exchange {
                word: call.guard(call.first.other()),
                from: free,
                to: call.taking.word(),
            },
            WinAt::Back => Action::Store(call.guard(call.first), free),
        }
    }

    pub fn told(self, call: WinCall, found: u64) -> WinNext
        ensures { result ≡ win_learn call self found }
    {
        let free = Guard::Free(call.granules).word();
        match self {
            WinAt::First => {
                if found == free {
                    WinNext::Goes(WinAt::Second)
                } else {
                    WinNext::NotWon(found)
                }
            }
            WinAt::Second => {
                if found == free {
                    WinNext::Won
                } else {
                    WinNext::Goes(WinAt::Back)
                }
            }
            WinAt::Back => WinNext::GivenBack,
        }
    }
}
