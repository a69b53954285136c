//! Freeing the objects of a slab: each that is held becomes the newest private one.

ghost use Rattle.std.specs.Prelude.{◌≡◌};
ghost use Rattle.word_codes.specs.Marks.{mark_of};
ghost use Rattle.reset_steps.specs.Strip.{object_unit, strip_from, strip_behind, strip_course};
ghost use Rattle.reset_steps.specs.Strip.{strip_marked, strip_learn};

use heap_slabs::HeapSlab;
use heap_slabs::records::unit_of;
use pool_words::{Action, Word};
use word_codes::{Mark, private_link};

/// The positions of a strip. The slab's record, which it is about, changes with each object that is freed.
#[derive(Clone, Copy)]
pub enum StripAt {
    /// Loads the mark of the object of this number.
    Mark { object: u64 },

    /// The object is held, and is freed.
    End { object: u64, mark: u64 },
}

#[derive(Clone, Copy)]
pub enum StripNext {
    Goes(StripAt),

    /// The object that begins at this unit is private now; the strip goes on behind it.
    Freed { object: u64, unit: u64 },

    /// No object of the slab is held.
    Stripped,
}

/// The unit at which an object of the slab begins.
fn object_unit(kept: HeapSlab, object: u64) -> u64
    ensures { result ≡ object_unit kept object }
{
    unit_of(kept.slab, kept.class, object)
}

/// The objects behind this one.
fn behind(kept: HeapSlab, object: u64) -> StripNext
    ensures { result ≡ strip_behind kept object }
{
    match StripAt::goes_on(kept, object.saturating_add(1)) {
        Some(at) => StripNext::Goes(at),
        None => StripNext::Stripped,
    }
}

/// The object's mark was looked at.
fn marked(kept: HeapSlab, object: u64, mark: u64) -> StripNext
    ensures { result ≡ strip_marked kept object mark (mark_of mark) }
{
    match Mark::of_word(mark) {
        Mark::Granted(_) => StripNext::Goes(StripAt::End { object, mark }),
        _ => behind(kept, object),
    }
}

impl StripAt {
    /// The strip of the objects from this number on; none where no object of the slab is held any more.
    pub fn goes_on(kept: HeapSlab, object: u64) -> Option<StripAt>
        ensures { result ≡ strip_from kept object }
    {
        if kept.count > 0 && object < kept.handed {
            Some(StripAt::Mark { object })
        } else {
            None
        }
    }

    pub fn next(self, kept: HeapSlab) -> Action
        ensures { result ≡ strip_course kept self }
    {
        match self {
            StripAt::Mark { object } => Action::Load(Word::Mark(object_unit(kept, object))),
            StripAt::End { object, mark } => Action::Exchange {
                word: Word::Mark(object_unit(kept, object)),
                from: mark,
                to: private_link(kept.head),
            },
        }
    }

    pub fn told(self, kept: HeapSlab, found: u64) -> StripNext
        ensures { result ≡ strip_learn kept self found }
    {
        match self {
            StripAt::Mark { object } => marked(kept, object, found),
            StripAt::End { object, mark } => {
                if found == mark {
                    let unit = object_unit(kept, object);
                    StripNext::Freed { object, unit }
                } else {
                    StripNext::Goes(StripAt::Mark { object })
                }
            }
        }
    }
}
