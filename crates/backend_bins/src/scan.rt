//! The scan for a block that has a wanted piece: the bins in order, each list from its first block on.

ghost use Rattle.std.specs.Prelude.{◌≡◌};
ghost use Rattle.backend_bins.specs.Scan.{scan_begins, scan_lock, scan_list, win_of, scan_course, scan_learn};
ghost use Rattle.backend_bins.specs.Scan.{goes, looks_on, visits, tries, notes};

use crate::blocks::{Block, LAST_BIN, Want, bin_of};
use guards::{Side, Taking, WinAt, WinCall, WinNext};
use locked_chain::{ListCall, Lock, LockNext, RemoveAt, RemoveNext};
use pool_words::{Action, Word};
use word_codes::{Guard, link_of};

/// The seat, and what it wants.
#[derive(Clone, Copy)]
pub struct ScanCall {
    pub seat: u8,
    pub want: Want,
}

/// The next step of a scan.
#[derive(Clone, Copy)]
pub enum ScanStep {
    /// The bin's head is looked at without its lock.
    Peek,

    Lock,

    /// The head is looked at under the lock.
    Head,

    /// The length of a block of the last bin is looked at.
    Length { first: u64 },

    /// A block that fits is won.
    Win { block: Block, at: WinAt },

    /// The block behind this one is looked at.
    Next { first: u64 },

    /// A block that was won is taken out of the list.
    Out { block: Block, at: RemoveAt },

    Unlock { took: Option<Block> },
}

/// A scan (a probe of the free lists): the bin that it is at, the lowest bin in which it noted a block that another was
/// taking or joining, how many blocks it saw, and its next step.
#[derive(Clone, Copy)]
pub struct ScanAt {
    pub bin: u64,
    pub noted: Option<u64>,
    pub seen: u64,
    pub step: ScanStep,
}

#[derive(Clone, Copy)]
pub enum ScanNext {
    Goes(ScanAt),

    /// Another has the lock of the bin that the scan is at.
    WaitsLock,

    /// Nothing was taken, and this is the lowest bin with a noted block. The scan begins again.
    WaitsHalf { bin: u64, again: ScanAt },

    /// The block is in hand.
    Took(Block),

    /// No block of any bin fits, of so many seen.
    Nothing { seen: u64 },
}

impl ScanCall {
    /// The scan's first look.
    pub fn begins(self) -> ScanAt
        ensures { result ≡ scan_begins self }
    {
        ScanAt {
            bin: bin_of(self.want.granules),
            noted: None,
            seen: 0,
            step: ScanStep::Peek,
        }
    }
}

impl ScanAt {
    /// The lock of the bin.
    fn lock(self, call: ScanCall) -> Lock
        ensures { result ≡ scan_lock call self }
    {
        Lock {
            word: Word::BinLock(self.bin),
            seat: call.seat,
        }
    }

    /// The list of the bin, of which this block is.
    fn list(self, block: Block) -> ListCall
        ensures { result ≡ scan_list self block }
    {
        ListCall {
            head: Word::BinHead(self.bin),
            item: block.first,
        }
    }

    pub fn next(self, call: ScanCall) -> Action
        ensures { result ≡ scan_course call self }
    {
        match self.step {
            ScanStep::Peek => Action::Load(Word::BinHead(self.bin)),
            ScanStep::Lock => self.lock(call).next(),
            ScanStep::Head => Action::Load(Word::BinHead(self.bin)),
            ScanStep::Length { first } => Action::Load(Word::Size(first)),
            ScanStep::Win { block, at } => at.next(win_of(block)),
            ScanStep::Next { first } => Action::Load(Word::Forward(first)),
            ScanStep::Out { block, at } => at.next(self.list(block)),
            ScanStep::Unlock { .. } => self.lock(call).frees(),
        }
    }

    /// The scan goes on with this step.
    fn goes(self, step: ScanStep) -> ScanNext
        ensures { result ≡ goes self step }
    {
        ScanNext::Goes(ScanAt { step, ..self })
    }

    /// The bin is done: the next one is looked at, or the scan ends.
    fn looks_on(self, call: ScanCall) -> ScanNext
        ensures { result ≡ looks_on call self }
    {
        if self.bin < LAST_BIN {
            return ScanNext::Goes(ScanAt {
                bin: self.bin + 1,
                step: ScanStep::Peek,
                ..self
            });
        }
        match self.noted {
            Some(bin) => ScanNext::WaitsHalf {
                bin,
                again: call.begins(),
            },
            None => ScanNext::Nothing { seen: self.seen },
        }
    }

    /// The block that a link of the list names is looked at; at the list's end the lock is freed.
    fn visits(self, call: ScanCall, link: Option<u64>) -> ScanNext
        ensures { result ≡ visits call self link }
    {
        let Some(first) = link else {
            return self.goes(ScanStep::Unlock { took: None });
        };
        let seeing = ScanAt {
            seen: self.seen.saturating_add(1),
            ..self
        };
        if self.bin < LAST_BIN {
            seeing.tries(
                call,
                Block {
                    first,
                    granules: self.bin + 1,
                },
            )
        } else {
            seeing.goes(ScanStep::Length { first })
        }
    }

    /// A block that fits is to be won; another is passed.
    fn tries(self, call: ScanCall, block: Block) -> ScanNext
        ensures { result ≡ tries call self block }
    {
        if call.want.fits(block) {
            self.goes(ScanStep::Win {
                block,
                at: WinAt::First,
            })
        } else {
            self.goes(ScanStep::Next { first: block.first })
        }
    }

    /// A block that another is taking or joining is noted by its bin, and passed.
    fn notes(self, first: u64) -> ScanNext
        ensures { result ≡ notes self first }
    {
        let lowest = match self.noted {
            Some(bin) => bin.min(self.bin),
            None => self.bin,
        };
        let noting = ScanAt {
            noted: Some(lowest),
            ..self
        };
        noting.goes(ScanStep::Next { first })
    }

    pub fn told(self, call: ScanCall, found: u64) -> ScanNext
        ensures { result ≡ scan_learn call self found }
    {
        match self.step {
            ScanStep::Peek => match link_of(found) {
                Some(_) => self.goes(ScanStep::Lock),
                None => self.looks_on(call),
            },
            ScanStep::Lock => match self.lock(call).told(found) {
                LockNext::Won => self.goes(ScanStep::Head),
                LockNext::Waits => ScanNext::WaitsLock,
            },
            ScanStep::Head => self.visits(call, link_of(found)),
            ScanStep::Length { first } => match Guard::of_word(found) {
                Guard::Free(granules) => self.tries(call, Block { first, granules }),
                _ => self.notes(first),
            },
            ScanStep::Win { block, at } => match at.told(win_of(block), found) {
                WinNext::Goes(next) => self.goes(ScanStep::Win { block, at: next }),
                WinNext::Won => self.goes(ScanStep::Out {
                    block,
                    at: RemoveAt::Forward,
                }),
                WinNext::NotWon(_) => self.notes(block.first),
                WinNext::GivenBack => self.notes(block.first),
            },
            ScanStep::Next { .. } => self.visits(call, link_of(found)),
            ScanStep::Out { block, at } => match at.told(found) {
                RemoveNext::Goes(next) => self.goes(ScanStep::Out { block, at: next }),
                RemoveNext::Out => self.goes(ScanStep::Unlock { took: Some(block) }),
            },
            ScanStep::Unlock { took } => match took {
                Some(block) => ScanNext::Took(block),
                None => self.looks_on(call),
            },
        }
    }
}

/// Winning a block for use: the guard at its begin comes first.
fn win_of(block: Block) -> WinCall
    ensures { result ≡ win_of block }
{
    WinCall {
        begin: block.first,
        end: block.end(),
        granules: block.granules,
        first: Side::Begin,
        taking: Taking::ForUse,
    }
}
