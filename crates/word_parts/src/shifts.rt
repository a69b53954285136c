//! What a step moves, by the units and granules at which it lies.

ghost use Rattle.std.specs.Prelude.{◌≡◌};
ghost use Rattle.word_codes.specs.RegionWords.{first_unit};
ghost use Rattle.word_parts.specs.Shifts.{bytes_of, block_moved, cached_in};

use crate::chains::Chain;
use backend_bins::Block;
use part_model::Holder;
use pool_types::geometry::{GRANULE_BYTES, UNIT_BYTES};
use pool_types::{Grant, Keeper, RegionRec};

/// How many units a granule has.
const GRANULE_UNITS: u64 = GRANULE_BYTES / UNIT_BYTES;

/// So many bytes from a unit on go from one holder to another.
#[derive(Clone, Copy)]
pub struct Shift {
    pub unit: u64,
    pub bytes: u64,
    pub from: Holder,
    pub to: Holder,
}

/// What a step moves. A slab goes by its first granule.
#[derive(Clone, Copy)]
pub enum Moved {
    Nothing,
    /// One object, or one block.
    One(Shift),
    /// A block in hand, in which a large object begins at a unit, is granted.
    Granted {
        block: Block,
        unit: u64,
        grant: Grant,
    },
    /// The block of a large object, which begins at a unit, comes into the hand.
    Ended {
        block: Block,
        unit: u64,
        grant: Grant,
    },
    /// A slab of a class is begun from a block in hand.
    SlabBegun {
        slab: u64,
        class: u8,
    },
    /// A slab of a class ends, of whose objects so many were handed out and none is held. Its block is in hand.
    SlabEnded {
        slab: u64,
        class: u8,
        handed: u64,
    },
    /// A slab goes from one keeper to another.
    Kept {
        slab: u64,
        from: Keeper,
        to: Keeper,
    },
    /// All of a chain, from its first item on.
    Taken {
        chain: Chain,
        first: Option<u64>,
    },
    /// All blocks of a cache bin behind the one that stays, or all where none stays.
    Cut {
        granules: u64,
        kept: Option<u64>,
    },
    /// A region comes, with its granules in hand.
    Comes(RegionRec),
    /// The region of this first granule leaves.
    Leaves {
        first: u64,
    },
}

/// The first unit of a granule.
pub fn first_unit(granule: u64) -> u64
    ensures { result ≡ first_unit granule }
{
    granule.saturating_mul(GRANULE_UNITS)
}

/// The bytes of so many granules.
pub(crate) fn granule_bytes(granules: u64) -> u64
    ensures { result ≡ bytes_of granules }
{
    granules.saturating_mul(GRANULE_BYTES)
}

/// A block goes from one holder to another.
pub fn block_moved(block: Block, from: Holder, to: Holder) -> Moved
    ensures { result ≡ block_moved block from to }
{
    Moved::One(Shift {
        unit: first_unit(block.first),
        bytes: granule_bytes(block.granules),
        from,
        to,
    })
}

/// The cache bin of blocks of so many granules.
pub fn cached_in(granules: u64) -> Holder
    ensures { result ≡ cached_in granules }
{
    Holder::Cached((granules % 65536) as u16)
}
