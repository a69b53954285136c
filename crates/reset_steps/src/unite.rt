//! Uniting a region, once all its granules are in bins: its blocks are won and taken out of their bins, from the first
//! on.

ghost use Rattle.std.specs.Prelude.{◌≡◌};
ghost use Rattle.reset_steps.specs.Unite.{united, unite_from, unite_win, unlink_call, unite_course};
ghost use Rattle.reset_steps.specs.Unite.{unite_sized, unite_won, unite_unlinked, unite_learn};

use backend_bins::{BinAt, BinCall, BinJob, BinNext, Block, bin_of};
use guards::{Side, Taking, WinAt, WinCall, WinNext};
use pool_words::{Action, Word};
use word_codes::Guard;

/// The seat, and the granules of the region.
#[derive(Clone, Copy)]
pub struct UniteCall {
    pub seat: u8,
    pub region: Block,
}

/// The positions at a block. The granules of the region before it are in hand.
#[derive(Clone, Copy)]
pub enum UniteAt {
    /// Loads the guard at the begin of the block that begins here.
    Size { first: u64 },

    /// Its guards are won,
    Win { block: Block, at: WinAt },

    /// and it is taken out of its bin.
    Unlink { block: Block, at: BinAt },
}

#[derive(Clone, Copy)]
pub enum UniteNext {
    Goes(UniteAt),

    /// Another has this bin's lock.
    Waits(u64),

    /// So much of the region is in hand as one block: all of it, unless a block was not free.
    United(Block),
}

/// Winning a block: the guard at its begin comes first.
fn unite_win(block: Block) -> WinCall
    ensures { result ≡ unite_win block }
{
    WinCall {
        begin: block.first,
        end: block.end(),
        granules: block.granules,
        first: Side::Begin,
        taking: Taking::ToJoin,
    }
}

/// Winning a block went on. Where it was lost, its guard is looked at again.
fn won(block: Block, next: WinNext) -> UniteNext
    ensures { result ≡ unite_won block next }
{
    UniteNext::Goes(match next {
        WinNext::Goes(at) => UniteAt::Win { block, at },
        WinNext::Won => UniteAt::Unlink {
            block,
            at: BinAt::Lock,
        },
        WinNext::NotWon(_) => UniteAt::Size { first: block.first },
        WinNext::GivenBack => UniteAt::Size { first: block.first },
    })
}

impl UniteCall {
    /// The granules of the region before this one are in hand.
    fn united(self, first: u64) -> UniteNext
        ensures { result ≡ united self first }
    {
        UniteNext::United(Block {
            first: self.region.first,
            granules: first.saturating_sub(self.region.first),
        })
    }

    /// The region's blocks from this granule on.
    pub fn goes_on(self, first: u64) -> UniteNext
        ensures { result ≡ unite_from self first }
    {
        if first < self.region.end() {
            UniteNext::Goes(UniteAt::Size { first })
        } else {
            self.united(first)
        }
    }

    fn unlink(self, block: Block) -> BinCall
        ensures { result ≡ unlink_call self block }
    {
        BinCall {
            seat: self.seat,
            block,
            job: BinJob::Unlink,
        }
    }

    /// What the guard at a block's begin says.
    fn sized(self, first: u64, guard: Guard) -> UniteNext
        ensures { result ≡ unite_sized self first guard }
    {
        match guard {
            Guard::Free(granules) => UniteNext::Goes(UniteAt::Win {
                block: Block { first, granules },
                at: WinAt::First,
            }),
            Guard::Used | Guard::Coalescing | Guard::Wall => self.united(first),
        }
    }

    /// Taking a block out of its bin went on.
    fn unlinked(self, block: Block, next: BinNext) -> UniteNext
        ensures { result ≡ unite_unlinked self block next }
    {
        match next {
            BinNext::Goes(at) => UniteNext::Goes(UniteAt::Unlink { block, at }),
            BinNext::Waits => UniteNext::Waits(bin_of(block.granules)),
            BinNext::Done => self.goes_on(block.end()),
        }
    }
}

impl UniteAt {
    pub fn next(self, call: UniteCall) -> Action
        ensures { result ≡ unite_course call self }
    {
        match self {
            UniteAt::Size { first } => Action::Load(Word::Size(first)),
            UniteAt::Win { block, at } => at.next(unite_win(block)),
            UniteAt::Unlink { block, at } => at.next(call.unlink(block)),
        }
    }

    pub fn told(self, call: UniteCall, found: u64) -> UniteNext
        ensures { result ≡ unite_learn call self found }
    {
        match self {
            UniteAt::Size { first } => call.sized(first, Guard::of_word(found)),
            UniteAt::Win { block, at } => won(block, at.told(unite_win(block), found)),
            UniteAt::Unlink { block, at } => {
                call.unlinked(block, at.told(call.unlink(block), found))
            }
        }
    }
}
