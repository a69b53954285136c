//! Which granule a unit is in, which slab a granule may be in, and which slot a region has.

ghost use Rattle.std.specs.Prelude.{◌≡◌};
ghost use Rattle.word_codes.specs.Places.{granule_of, slab_granule, slot_of};

use pool_types::geometry::{GRANULE_BYTES, SLAB_GRANULES, UNIT_BYTES};
use pool_types::limits::MOST_REGIONS;

/// The granule that a unit is in.
pub fn granule_of(unit: u64) -> u64
    ensures { result ≡ granule_of unit }
{
    unit / (GRANULE_BYTES / UNIT_BYTES)
}

/// The first granule of the slab that a granule is in, if it is in one: the even one at or below it.
pub fn slab_granule(granule: u64) -> u64
    ensures { result ≡ slab_granule granule }
{
    granule / SLAB_GRANULES * SLAB_GRANULES
}

/// The slot of the region of this number.
pub fn slot_of(number: u64) -> u64
    ensures { result ≡ slot_of number }
{
    number % MOST_REGIONS as u64
}
