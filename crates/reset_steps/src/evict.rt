//! Taking the large objects of a region, once no small object is held: in each granule in which a large object may
//! begin, its lines are looked at for a mark that names a grant.

ghost use Rattle.std.specs.Prelude.{◌≡◌};
ghost use Rattle.word_codes.specs.Marks.{mark_of};
ghost use Rattle.reset_steps.specs.Evict.{unit_at, evict_from, evict_course};
ghost use Rattle.reset_steps.specs.Evict.{evict_kinded, evict_lined, evict_marked, evict_learn};

use backend_bins::Block;
use pool_types::geometry::{GRANULE_BYTES, LINE_BYTES, UNIT_BYTES};
use pool_words::{Action, Word};
use word_codes::{Kind, Mark};

/// The last line of a granule.
const LAST_LINE: u64 = GRANULE_BYTES / LINE_BYTES - 1;

/// The seat, and the granules of the region.
#[derive(Clone, Copy)]
pub struct EvictCall {
    pub seat: u8,
    pub region: Block,
}

/// The positions at a granule. `block` is the one that a large object that began in it had.
#[derive(Clone, Copy)]
pub enum EvictAt {
    /// Loads what begins in the granule.
    Kind {
        granule: u64,
    },

    /// Loads the mark of the unit at which a line begins.
    Mark {
        granule: u64,
        block: Block,
        line: u64,
    },

    /// The object is held, and comes into the seat's hand with its block.
    End {
        granule: u64,
        block: Block,
        line: u64,
        mark: u64,
    },
}

#[derive(Clone, Copy)]
pub enum EvictNext {
    Goes(EvictAt),

    /// The block of a large object is in hand. Others may begin from `granule` on.
    Ended { block: Block, granule: u64 },

    /// No more large object begins in the region.
    Passed,
}

/// The unit at which a line of a granule begins.
fn unit_at(granule: u64, line: u64) -> u64
    ensures { result ≡ unit_at granule line }
{
    granule
        .saturating_mul(GRANULE_BYTES / UNIT_BYTES)
        .saturating_add(line.saturating_mul(LINE_BYTES / UNIT_BYTES))
}

impl EvictCall {
    /// What begins in the granule is known.
    fn kinded(self, granule: u64, kind: Kind) -> EvictNext
        ensures { result ≡ evict_kinded self granule kind }
    {
        match kind {
            Kind::Large { first, granules } => EvictNext::Goes(EvictAt::Mark {
                granule,
                block: Block { first, granules },
                line: 0,
            }),
            _ => self.goes_on(granule.saturating_add(1)),
        }
    }

    /// The next line, or the next granule.
    fn lined(self, granule: u64, block: Block, line: u64) -> EvictNext
        ensures { result ≡ evict_lined self granule block line }
    {
        if line < LAST_LINE {
            EvictNext::Goes(EvictAt::Mark {
                granule,
                block,
                line: line + 1,
            })
        } else {
            self.goes_on(granule.saturating_add(1))
        }
    }

    /// The mark at a line was looked at.
    fn marked(self, granule: u64, block: Block, line: u64, mark: u64) -> EvictNext
        ensures { result ≡ evict_marked self granule block line mark (mark_of mark) }
    {
        match Mark::of_word(mark) {
            Mark::Granted(_) => EvictNext::Goes(EvictAt::End {
                granule,
                block,
                line,
                mark,
            }),
            _ => self.lined(granule, block, line),
        }
    }

    /// The region's granules from this one on.
    pub fn goes_on(self, granule: u64) -> EvictNext
        ensures { result ≡ evict_from self granule }
    {
        if granule < self.region.end() {
            EvictNext::Goes(EvictAt::Kind { granule })
        } else {
            EvictNext::Passed
        }
    }
}

impl EvictAt {
    pub fn next(self, call: EvictCall) -> Action
        ensures { result ≡ evict_course call self }
    {
        match self {
            EvictAt::Kind { granule } => Action::Load(Word::Kind(granule)),
            EvictAt::Mark { granule, line, .. } => Action::Load(Word::Mark(unit_at(granule, line))),
            EvictAt::End {
                granule,
                line,
                mark,
                ..
            } => Action::Exchange {
                word: Word::Mark(unit_at(granule, line)),
                from: mark,
                to: Mark::Hand(call.seat).word(),
            },
        }
    }

    pub fn told(self, call: EvictCall, found: u64) -> EvictNext
        ensures { result ≡ evict_learn call self found }
    {
        match self {
            EvictAt::Kind { granule } => call.kinded(granule, Kind::of_word(found)),
            EvictAt::Mark {
                granule,
                block,
                line,
            } => call.marked(granule, block, line, found),
            EvictAt::End {
                granule,
                block,
                line,
                mark,
            } => {
                if found == mark {
                    let granule = granule.saturating_add(1);
                    EvictNext::Ended { block, granule }
                } else {
                    EvictNext::Goes(EvictAt::Mark {
                        granule,
                        block,
                        line,
                    })
                }
            }
        }
    }
}
