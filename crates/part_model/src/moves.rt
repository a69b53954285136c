//! Moves of bytes from one holder to another.
ghost use Rattle.std.specs.Prelude.{◌≡◌, ◌↔◌, IsTrue};
ghost use Rattle.part_model.specs.Holding.{same_region, IsWhole, AreWhole, IsApart, IsApartFromAll, AreApart};

use crate::holders::Holder;
use arrayvec::ArrayVec;
use pool_types::Place;

/// Bytes in a row: the place of the first, and how many.
#[derive(Clone, Copy, Debug, Default, PartialEq, Eq)]
pub struct Range {
    pub place: Place,
    pub bytes: u64,
}

/// Bytes that go from one holder to another. None stands for a region that isn't yet, or is no longer, in the pool.
#[derive(Clone, Copy, Debug, Default, PartialEq, Eq)]
pub struct Part {
    pub range: Range,
    pub from: Option<Holder>,
    pub to: Option<Holder>,
}

/// What one step of a seat moves.
#[derive(Debug, Drop)]
pub struct Move {
    pub seat: u8,
    pub parts: ArrayVec<Part, 4>,
}

impl Move {
    /// Whether a partition can judge it: each part has a byte and ends where an offset still can be, and no byte is in
    /// two parts.
    pub fn is_well_formed(&self) -> bool
        ensures { IsTrue result ↔ (AreWhole self.now.parts.items × AreApart self.now.parts.items) }
    {
        let parts = self.parts.as_slice();
        are_whole(parts) && are_apart(parts)
    }
}

/// Whether both lie in one region of one pool.
pub(crate) fn same_region(one: &Place, other: &Place) -> bool
    ensures { result ≡ same_region one.now other.now }
{
    one.pool == other.pool && one.region == other.region
}

/// Whether the range has a byte, and ends where an offset still can be.
fn is_whole(range: &Range) -> bool
    ensures { IsTrue result ↔ IsWhole range.now }
{
    0 < range.bytes && range.bytes <= u64::MAX - range.place.offset
}

/// Whether the range of each part is whole.
fn are_whole(parts: &[Part]) -> bool
    ensures { IsTrue result ↔ AreWhole parts.now }
{
    for part in parts {
        if !is_whole(&part.range) {
            return false;
        }
    }
    true
}

/// Whether no byte lies in both.
fn is_apart(one: &Range, other: &Range) -> bool
    requires one { IsWhole one.now }
    requires other { IsWhole other.now }
    ensures { IsTrue result ↔ IsApart one.now other.now }
{
    !same_region(&one.place, &other.place)
        || one.place.offset + one.bytes <= other.place.offset
        || other.place.offset + other.bytes <= one.place.offset
}

/// Whether no byte of the range lies in one of the parts.
fn is_apart_from_all(range: &Range, parts: &[Part]) -> bool
    requires range { IsWhole range.now }
    requires parts { AreWhole parts.now }
    ensures { IsTrue result ↔ IsApartFromAll range.now parts.now }
{
    for part in parts {
        if !is_apart(range, &part.range) {
            return false;
        }
    }
    true
}

/// Whether no byte lies in two of the parts.
fn are_apart(parts: &[Part]) -> bool
    requires { AreWhole parts.now }
    ensures { IsTrue result ↔ AreApart parts.now }
{
    for (index, part) in parts.iter().enumerate() {
        if !is_apart_from_all(&part.range, &parts[index + 1..]) {
            return false;
        }
    }
    true
}
