//! Looking at a place: whether its region is there, whether an object is held that begins there, and what it lies in.

ghost use Rattle.std.specs.Prelude.{◌≡◌};
ghost use Rattle.public_list.specs.Looking.{look_course, look_learn, look_region, look_placed, look_marked, look_kinded, look_held, look_again, found_at};

use pool_types::Found;
use pool_words::{Action, Word};
use word_codes::{Kind, Mark, RegionWord, granule_of, slab_granule, slot_of};

/// What the look is for: a free, the size of an object, the pool of an object, or a realloc.
#[derive(Clone, Copy)]
pub enum LookFor {
    Free,
    Size,
    Pool,
    Realloc,
}

/// A look (a probe of words): the place, by its region's number and the offset in it, and what the look is for.
#[derive(Clone, Copy)]
pub struct LookCall {
    pub number: u64,
    pub offset: u64,
    pub reason: LookFor,
}

/// The step that comes next.
#[derive(Clone, Copy)]
pub enum LookAt {
    /// The region of the place's slot.
    Region,
    /// The mark of the unit that begins there.
    Mark {
        unit: u64,
    },
    /// The region once more.
    Again {
        unit: u64,
        mark: u64,
    },
    /// The kind of the slab that the unit may be in.
    Kind {
        unit: u64,
        mark: u64,
    },
    /// The kind of the unit's own granule, which is odd.
    Odd {
        unit: u64,
        mark: u64,
    },
    /// The base of the region.
    Base {
        unit: u64,
        mark: u64,
        kind: Kind,
    },
    /// The mark once more.
    Second {
        unit: u64,
        mark: u64,
        kind: Kind,
        base: u64,
    },
    /// The region, after the second mark was another one.
    Gone {
        mark: u64,
    },
}

#[derive(Clone, Copy)]
pub enum LookNext {
    Goes(LookAt),
    /// The object is held: the word of its mark, what it lies in, and the region's base where that was loaded.
    Held {
        unit: u64,
        mark: u64,
        kind: Kind,
        base: u64,
    },
    /// For the pool of an object alone: the second mark is another one.
    Differs,
    NotHeld(Found),
}

impl LookAt {
    pub fn next(self, call: LookCall) -> Action
        ensures { result ≡ look_course call self }
    {
        match self {
            LookAt::Region => Action::Load(Word::Region(slot_of(call.number))),
            LookAt::Mark { unit } => Action::Load(Word::Mark(unit)),
            LookAt::Again { .. } => Action::Load(Word::Region(slot_of(call.number))),
            LookAt::Kind { unit, .. } => Action::Load(Word::Kind(slab_granule(granule_of(unit)))),
            LookAt::Odd { unit, .. } => Action::Load(Word::Kind(granule_of(unit))),
            LookAt::Base { .. } => Action::Load(Word::Base(slot_of(call.number))),
            LookAt::Second { unit, .. } => Action::Load(Word::Mark(unit)),
            LookAt::Gone { .. } => Action::Load(Word::Region(slot_of(call.number))),
        }
    }

    pub fn told(self, call: LookCall, found: u64) -> LookNext
        ensures { result ≡ look_learn call self found }
    {
        match self {
            LookAt::Region => look_region(call, RegionWord::of_word(found)),
            LookAt::Mark { unit } => LookNext::Goes(LookAt::Again { unit, mark: found }),
            LookAt::Again { unit, mark } => {
                if RegionWord::of_word(found).has_number(call.number) {
                    look_marked(unit, mark)
                } else {
                    LookNext::NotHeld(Found::NoPlace)
                }
            }
            LookAt::Kind { unit, mark } => look_kinded(
                call.reason,
                unit,
                mark,
                Kind::of_word(found),
            ),
            LookAt::Odd { unit, mark } => look_held(call.reason, unit, mark, Kind::of_word(found)),
            LookAt::Base { unit, mark, kind } => LookNext::Goes(LookAt::Second {
                unit,
                mark,
                kind,
                base: found,
            }),
            LookAt::Second {
                unit,
                mark,
                kind,
                base,
            } => {
                if found == mark {
                    LookNext::Held {
                        unit,
                        mark,
                        kind,
                        base,
                    }
                } else {
                    look_again(call.reason, found)
                }
            }
            LookAt::Gone { mark } => LookNext::NotHeld(found_at(found, call.number, mark)),
        }
    }
}

/// What comes after the region.
fn look_region(call: LookCall, region: RegionWord) -> LookNext
    ensures { result ≡ look_region call region }
{
    if region.has_number(call.number) {
        look_placed(region.unit_in(call.offset))
    } else {
        LookNext::NotHeld(Found::NoPlace)
    }
}

/// What comes after the place's unit.
fn look_placed(unit: Option<u64>) -> LookNext
    ensures { result ≡ look_placed unit }
{
    match unit {
        Some(unit) => LookNext::Goes(LookAt::Mark { unit }),
        None => LookNext::NotHeld(Found::NoPlace),
    }
}

/// What comes after the mark, where the region was there before and after it.
fn look_marked(unit: u64, mark: u64) -> LookNext
    ensures { result ≡ look_marked unit mark }
{
    match Mark::of_word(mark) {
        Mark::Granted(_) => LookNext::Goes(LookAt::Kind { unit, mark }),
        _ => LookNext::NotHeld(Found::NoGrant),
    }
}

/// What comes after the kind at the even granule: it counts where it is a slab, or where the unit is in that granule.
fn look_kinded(reason: LookFor, unit: u64, mark: u64, kind: Kind) -> LookNext
    ensures { result ≡ look_kinded reason unit mark kind }
{
    if matches!(kind, Kind::Slab(_)) || granule_of(unit) % 2 == 0 {
        look_held(reason, unit, mark, kind)
    } else {
        LookNext::Goes(LookAt::Odd { unit, mark })
    }
}

/// What comes after the kind that counts.
fn look_held(reason: LookFor, unit: u64, mark: u64, kind: Kind) -> LookNext
    ensures { result ≡ look_held reason unit mark kind }
{
    match reason {
        LookFor::Free => LookNext::Held {
            unit,
            mark,
            kind,
            base: 0,
        },
        LookFor::Size | LookFor::Pool => LookNext::Goes(LookAt::Second {
            unit,
            mark,
            kind,
            base: 0,
        }),
        LookFor::Realloc => LookNext::Goes(LookAt::Base { unit, mark, kind }),
    }
}

/// What comes after a second mark that is another one.
fn look_again(reason: LookFor, mark: u64) -> LookNext
    ensures { result ≡ look_again reason mark }
{
    match reason {
        LookFor::Pool => LookNext::Differs,
        LookFor::Free | LookFor::Size | LookFor::Realloc => LookNext::Goes(LookAt::Gone { mark }),
    }
}

/// What was found at a place whose slot has this region word, where the unit had this mark.
pub fn found_at(region: u64, number: u64, mark: u64) -> Found
    ensures { result ≡ found_at region number mark }
{
    if !RegionWord::of_word(region).has_number(number) {
        return Found::NoPlace;
    }
    match Mark::of_word(mark) {
        Mark::Granted(grant) => Found::Other(grant),
        _ => Found::NoGrant,
    }
}
