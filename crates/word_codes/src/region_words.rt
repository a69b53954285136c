//! The region of a slot. From the lowest bit on: 1 bit that says that a region is there, its number in 22 bits,
//! the index of its first granule in 14, how many granules it has in 14, and the bytes before the first of them
//! in 13. The word of a slot without a region is 0.

ghost use Rattle.std.specs.Prelude.{◌≡◌};
ghost use Rattle.word_codes.specs.RegionWords.{region_of, region_word, has_number, has_granule, unit_in, offset_of, large_unit};

use pool_types::geometry::{GRANULE_BYTES, LINE_BYTES, UNIT_BYTES};

/// How many units a granule has.
const GRANULE_UNITS: u64 = GRANULE_BYTES / UNIT_BYTES;

#[derive(Clone, Copy)]
pub struct RegionWord {
    pub live: bool,
    pub number: u64,
    pub first: u64,
    pub granules: u64,
    pub waste: u64,
}

impl RegionWord {
    #[tactic(auto, unfolding(crate::specs::RegionWords::region_of))]
    pub fn of_word(word: u64) -> RegionWord
        ensures { result ≡ region_of word }
    {
        RegionWord {
            live: word % 2 == 1,
            number: word / 2 % 4194304,
            first: word / 8388608 % 16384,
            granules: word / 137438953472 % 16384,
            waste: word / 2251799813685248,
        }
    }

    #[tactic(auto, unfolding(crate::specs::RegionWords::region_word))]
    pub fn word(self) -> u64
        ensures { result ≡ region_word self }
    {
        u64::from(self.live)
            + 2 * (self.number % 4194304)
            + 8388608 * (self.first % 16384)
            + 137438953472 * (self.granules % 16384)
            + 2251799813685248 * (self.waste % 8192)
    }

    /// Whether the region of this number is there.
    pub fn has_number(self, number: u64) -> bool
        ensures { result ≡ has_number self number }
    {
        self.live && self.number == number
    }

    /// Whether a region with this granule is there.
    pub fn has_granule(self, granule: u64) -> bool
        ensures { result ≡ has_granule self granule }
    {
        self.live && self.first <= granule && granule.saturating_sub(self.first) < self.granules
    }

    /// The unit that begins at this offset of the region, if one of its granules has one there.
    #[tactic(auto, unfolding(crate::specs::RegionWords::unit_in))]
    pub fn unit_in(self, offset: u64) -> Option<u64>
        ensures { result ≡ unit_in self offset }
    {
        let within = offset.saturating_sub(self.waste);
        if offset < self.waste
            || within % UNIT_BYTES != 0
            || within / GRANULE_BYTES >= self.granules
        {
            return None;
        }
        Some((within / UNIT_BYTES).saturating_add(self.first.saturating_mul(GRANULE_UNITS)))
    }

    /// The offset at which a unit of the region begins.
    #[tactic(auto, unfolding(crate::specs::RegionWords::offset_of))]
    pub fn offset_of(self, unit: u64) -> u64
        ensures { result ≡ offset_of self unit }
    {
        unit.saturating_sub(self.first.saturating_mul(GRANULE_UNITS))
            .saturating_mul(UNIT_BYTES)
            .saturating_add(self.waste)
    }
    /// The unit in which the large object of a block begins, by the region's base and the block's first
    /// granule: at the first address that is a line or more behind the block's begin, and a multiple of the
    /// alignment.
    #[tactic(auto, unfolding(crate::specs::RegionWords::large_unit))]
    pub fn large_unit(self, base: u64, block: u64, alignment: u64) -> u64
        ensures { result ≡ large_unit self base block alignment }
    {
        let unit = block.saturating_mul(GRANULE_UNITS);
        let start = base.saturating_add(self.offset_of(unit));
        let multiple = alignment.max(1);
        let least = start
            .saturating_add(LINE_BYTES)
            .saturating_add(multiple - 1);
        let begin = least / multiple * multiple;
        unit.saturating_add(begin.saturating_sub(start) / UNIT_BYTES)
    }
}
