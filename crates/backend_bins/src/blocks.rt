//! Blocks of granules, the bins that they are in, and the pieces that are wanted of them.

ghost use Rattle.std.specs.Prelude.{◌≡◌};
ghost use Rattle.pool_types.specs.Geometry.{bin_count};
ghost use Rattle.backend_bins.specs.Blocks.{block_end, bin_of, last_bin, first_skipped, fits, piece_of};

use pool_types::geometry::BIN_COUNT;

/// So many granules from a first one on: a free block, or one in hand.
#[derive(Clone, Copy)]
pub struct Block {
    pub first: u64,
    pub granules: u64,
}

/// How many granules are wanted, and whether for a slab, which begins at an even granule.
#[derive(Clone, Copy)]
pub struct Want {
    pub granules: u64,
    pub slab: bool,
}

/// The last bin, which has all blocks of its length and of more granules.
pub const LAST_BIN: u64 = BIN_COUNT as u64 - 1;

/// The bin of blocks of so many granules.
pub fn bin_of(granules: u64) -> u64
    ensures { result ≡ bin_of granules }
{
    granules.min(u64::from(BIN_COUNT)).saturating_sub(1)
}

impl Block {
    /// The granule behind the block.
    pub fn end(self) -> u64
        ensures { result ≡ block_end self }
    {
        self.first.saturating_add(self.granules)
    }
}

impl Want {
    /// How many granules of a block that begins here come before the piece.
    fn skipped(self, first: u64) -> u64
        ensures { result ≡ first_skipped self first }
    {
        if self.slab { first % 2 } else { 0 }
    }

    /// Whether a block has the piece.
    pub fn fits(self, block: Block) -> bool
        ensures { result ≡ fits self block }
    {
        self.skipped(block.first).saturating_add(self.granules) <= block.granules
    }

    /// The piece of a block that fits.
    pub fn piece(self, block: Block) -> Block
        ensures { result ≡ piece_of self block }
    {
        Block {
            first: block.first.saturating_add(self.skipped(block.first)),
            granules: self.granules,
        }
    }
}

/// The code's number is that of the definitions.
pub fn last_bin_is_the_definition()
    ensures { LAST_BIN ≡ last_bin }
{}
