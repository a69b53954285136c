//! Cutting a piece from a block in hand. Guards within the block say that they are used before a rest is put into its
//! bin, since older blocks may have left free ones there.

ghost use Rattle.std.specs.Prelude.{◌≡◌};
ghost use Rattle.backend_bins.specs.Cut.{front_of, back_of, cut_begins, at_back, at_rests, at_last, front_call};
ghost use Rattle.backend_bins.specs.Cut.{back_call, cut_course, cut_learn};

use crate::bin::{BinAt, BinCall, BinJob, BinNext};
use crate::blocks::{Block, bin_of};
use pool_words::{Action, Word};
use word_codes::Guard;

/// The seat, the block in hand, and the piece of it that stays in hand.
#[derive(Clone, Copy)]
pub struct CutCall {
    pub seat: u8,
    pub block: Block,
    pub piece: Block,
}

#[derive(Clone, Copy)]
pub enum CutAt {
    /// The guard behind the front rest's end.
    FrontLeft,

    /// The guard at the piece's begin.
    FrontSize,

    /// The guard behind the piece's end.
    BackLeft,

    /// The guard at the back rest's begin.
    BackSize,

    /// The front rest is put into its bin.
    Front(BinAt),

    /// The back rest is.
    Back(BinAt),
}

#[derive(Clone, Copy)]
pub enum CutNext {
    Goes(CutAt),

    /// Another has this bin's lock.
    Waits(u64),

    /// The piece alone is in hand.
    Done,
}

impl CutCall {
    /// What is before the piece.
    fn front(self) -> Block
        ensures { result ≡ front_of self }
    {
        Block {
            first: self.block.first,
            granules: self.piece.first.saturating_sub(self.block.first),
        }
    }

    /// What is behind the piece.
    fn back(self) -> Block
        ensures { result ≡ back_of self }
    {
        let end = self.piece.end();
        Block {
            first: end,
            granules: self.block.end().saturating_sub(end),
        }
    }

    /// Putting the front rest into its bin.
    fn front_call(self) -> BinCall
        ensures { result ≡ front_call self }
    {
        BinCall {
            seat: self.seat,
            block: self.front(),
            job: BinJob::Insert,
        }
    }

    /// Putting the back rest into its bin.
    fn back_call(self) -> BinCall
        ensures { result ≡ back_call self }
    {
        BinCall {
            seat: self.seat,
            block: self.back(),
            job: BinJob::Insert,
        }
    }

    /// The first step of the cut.
    pub fn begins(self) -> CutNext
        ensures { result ≡ cut_begins self }
    {
        if self.front().granules > 0 {
            CutNext::Goes(CutAt::FrontLeft)
        } else {
            self.at_back()
        }
    }

    /// The first step at the piece's end.
    fn at_back(self) -> CutNext
        ensures { result ≡ at_back self }
    {
        if self.back().granules > 0 {
            CutNext::Goes(CutAt::BackLeft)
        } else {
            self.at_rests()
        }
    }

    /// The first step that puts a rest into its bin.
    fn at_rests(self) -> CutNext
        ensures { result ≡ at_rests self }
    {
        if self.front().granules > 0 {
            CutNext::Goes(CutAt::Front(BinAt::Lock))
        } else {
            self.at_last()
        }
    }

    /// The first step that puts the back rest into its bin.
    fn at_last(self) -> CutNext
        ensures { result ≡ at_last self }
    {
        if self.back().granules > 0 {
            CutNext::Goes(CutAt::Back(BinAt::Lock))
        } else {
            CutNext::Done
        }
    }
}

impl CutAt {
    pub fn next(self, call: CutCall) -> Action
        ensures { result ≡ cut_course call self }
    {
        let used = Guard::Used.word();
        match self {
            CutAt::FrontLeft => Action::Store(Word::Left(call.piece.first), used),
            CutAt::FrontSize => Action::Store(Word::Size(call.piece.first), used),
            CutAt::BackLeft => Action::Store(Word::Left(call.piece.end()), used),
            CutAt::BackSize => Action::Store(Word::Size(call.piece.end()), used),
            CutAt::Front(at) => at.next(call.front_call()),
            CutAt::Back(at) => at.next(call.back_call()),
        }
    }

    pub fn told(self, call: CutCall, found: u64) -> CutNext
        ensures { result ≡ cut_learn call self found }
    {
        match self {
            CutAt::FrontLeft => CutNext::Goes(CutAt::FrontSize),
            CutAt::FrontSize => call.at_back(),
            CutAt::BackLeft => CutNext::Goes(CutAt::BackSize),
            CutAt::BackSize => call.at_rests(),
            CutAt::Front(at) => match at.told(call.front_call(), found) {
                BinNext::Goes(next) => CutNext::Goes(CutAt::Front(next)),
                BinNext::Waits => CutNext::Waits(bin_of(call.front().granules)),
                BinNext::Done => call.at_last(),
            },
            CutAt::Back(at) => match at.told(call.back_call(), found) {
                BinNext::Goes(next) => CutNext::Goes(CutAt::Back(next)),
                BinNext::Waits => CutNext::Waits(bin_of(call.back().granules)),
                BinNext::Done => CutNext::Done,
            },
        }
    }
}
