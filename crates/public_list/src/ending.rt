//! Ending a grant: one exchange of the object's mark, from that grant.

ghost use Rattle.std.specs.Prelude.{◌≡◌};
ghost use Rattle.public_list.specs.Ending.{end_course, end_learn};

use crate::looking::found_at;
use pool_types::Found;
use pool_words::{Action, Word};
use word_codes::{Mark, private_link, slot_of};

/// The object's unit and its mark's word as it was found, the number of its region, the seat, and the newest
/// private object of the object's slab where the seat keeps that slab.
#[derive(Clone, Copy)]
pub struct EndCall {
    pub unit: u64,
    pub mark: u64,
    pub number: u64,
    pub seat: u8,
    pub head: Option<u64>,
}

/// The step that comes next.
#[derive(Clone, Copy)]
pub enum EndAt {
    /// The object becomes the newest private one of a slab that the seat keeps.
    Own,
    /// The object of another's slab comes into the seat's hand.
    Other,
    /// The large object comes into the seat's hand with its block.
    Large,
    /// The mark was another one; the region is loaded.
    Lost { mark: u64 },
}

#[derive(Clone, Copy)]
pub enum EndNext {
    Goes(EndAt),
    Own,
    Other,
    Large,
    NotHeld(Found),
}

impl EndAt {
    pub fn next(self, call: EndCall) -> Action
        ensures { result ≡ end_course call self }
    {
        match self {
            EndAt::Own => Action::Exchange {
                word: Word::Mark(call.unit),
                from: call.mark,
                to: private_link(call.head),
            },
            EndAt::Other => Action::Exchange {
                word: Word::Mark(call.unit),
                from: call.mark,
                to: Mark::Hand(call.seat).word(),
            },
            EndAt::Large => Action::Exchange {
                word: Word::Mark(call.unit),
                from: call.mark,
                to: Mark::Hand(call.seat).word(),
            },
            EndAt::Lost { .. } => Action::Load(Word::Region(slot_of(call.number))),
        }
    }

    pub fn told(self, call: EndCall, found: u64) -> EndNext
        ensures { result ≡ end_learn call self found }
    {
        match self {
            EndAt::Own => {
                if found == call.mark {
                    EndNext::Own
                } else {
                    EndNext::Goes(EndAt::Lost { mark: found })
                }
            }
            EndAt::Other => {
                if found == call.mark {
                    EndNext::Other
                } else {
                    EndNext::Goes(EndAt::Lost { mark: found })
                }
            }
            EndAt::Large => {
                if found == call.mark {
                    EndNext::Large
                } else {
                    EndNext::Goes(EndAt::Lost { mark: found })
                }
            }
            EndAt::Lost { mark } => EndNext::NotHeld(found_at(found, call.number, mark)),
        }
    }
}
