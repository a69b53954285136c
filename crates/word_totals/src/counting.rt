//! The totals of a pool: each byte of a live region under one holder.

ghost use Rattle.std.specs.Prelude.{◌≡◌};
ghost use Rattle.part_model.specs.Totals.{no_totals};
ghost use Rattle.word_totals.specs.Counting.{with_held, with_units, with_objects, with_granule, with_granules};
ghost use Rattle.word_totals.specs.Counting.{bytes_of, with_bytes, with_region, with_regions, with_blocks, with_amid};
ghost use Rattle.word_totals.specs.Counting.{with_seats, with_hand, totals_of};

use crate::blocks::{bin_bytes, block_bytes, cached_bytes, queue_bytes};
use crate::middle::Amid;
use crate::objects::{GRANULE_UNITS, granule_kind, head_of, usable_of};
use crate::reading::AtRest;
use crate::slabs::{joined_bytes, with_begun};
use part_model::Totals;
use pool_types::RegionRec;
use pool_types::limits::MOST_REGIONS;
use pool_words::Word;
use word_codes::{Kind, Mark, RegionWord};

const NO_TOTALS: Totals = Totals {
    regions: 0,
    bytes: 0,
    waste: 0,
    head: 0,
    rest: 0,
    private: 0,
    public: 0,
    object: 0,
    large_head: 0,
    slab_cache: 0,
    cached: 0,
    bin: 0,
    queue: 0,
    hand: 0,
};

/// The totals with the object that begins at a unit, where its mark names a grant.
#[tactic(auto, unfolding(crate::specs::Counting::with_held))]
fn with_held(kind: Kind, unit: u64, mark: Mark, totals: Totals) -> Totals
    ensures { result ≡ with_held kind unit mark totals }
{
    match mark {
        Mark::Granted(_) => Totals {
            object: totals.object.saturating_add(usable_of(kind, unit)),
            large_head: totals.large_head.saturating_add(head_of(kind, unit)),
            ..totals
        },
        _ => totals,
    }
}

/// The totals with the objects that begin in so many units from this one on.
#[tactic(auto, unfolding(crate::specs::Counting::with_units))]
fn with_units<P: AtRest>(pool: &mut P, kind: Kind, units: u64, first: u64, before: Totals) -> Totals
    ensures exact { result ≡ with_units (P.still pool.old) kind units first before }
    ensures same { P.still pool.new ≡ P.still pool.old }
{
    let mut totals = before;
    let mut unit = first;
    let mut left = units;
    while left > 0 {
        let mark = Mark::of_word(pool.load(Word::Mark(unit)));
        totals = with_held(kind, unit, mark, totals);
        unit = unit.saturating_add(1);
        left -= 1;
    }
    totals
}

/// The totals with the objects that begin in a granule, where it is in a slab or in a large block.
fn with_objects<P: AtRest>(pool: &mut P, granule: u64, kind: Kind, totals: Totals) -> Totals
    ensures exact { result ≡ with_objects (P.still pool.old) granule kind totals }
    ensures same { P.still pool.new ≡ P.still pool.old }
{
    let unit = granule.saturating_mul(GRANULE_UNITS);
    match kind {
        Kind::Nothing => totals,
        Kind::CachedSlab => totals,
        Kind::Slab(_) => with_units(pool, kind, GRANULE_UNITS, unit, totals),
        Kind::Large { .. } => with_units(pool, kind, GRANULE_UNITS, unit, totals),
    }
}

/// The totals with a granule: the slab that begins there, and the objects that begin in it.
#[tactic(auto, unfolding(crate::specs::Counting::with_granule))]
fn with_granule<P: AtRest>(pool: &mut P, granule: u64, totals: Totals) -> Totals
    ensures exact { result ≡ with_granule (P.still pool.old) granule totals }
    ensures same { P.still pool.new ≡ P.still pool.old }
{
    let own = Kind::of_word(pool.load(Word::Kind(granule)));
    let with_slab = with_begun(pool, granule, own, totals);
    let kind = granule_kind(pool, granule);
    with_objects(pool, granule, kind, with_slab)
}

/// The totals with so many granules from this one on.
#[tactic(auto, unfolding(crate::specs::Counting::with_granules))]
fn with_granules<P: AtRest>(pool: &mut P, granules: u64, first: u64, before: Totals) -> Totals
    ensures exact { result ≡ with_granules (P.still pool.old) granules first before }
    ensures same { P.still pool.new ≡ P.still pool.old }
{
    let mut totals = before;
    let mut granule = first;
    let mut left = granules;
    while left > 0 {
        totals = with_granule(pool, granule, totals);
        granule = granule.saturating_add(1);
        left -= 1;
    }
    totals
}

/// The bytes of the region of a number, by the office's records, and 0 where there is no such record.
fn bytes_of(records: &[RegionRec], number: u64) -> u64
    ensures { result ≡ bytes_of records.now number }
{
    for one in records {
        if u64::from(one.number) == number {
            return one.region.bytes;
        }
    }
    0
}

/// The totals with a region of so many bytes; what lies outside its granules is waste.
fn with_bytes(totals: Totals, bytes: u64, granules: u64) -> Totals
    ensures { result ≡ with_bytes totals bytes granules }
{
    let waste = bytes.saturating_sub(block_bytes(granules));
    Totals {
        regions: totals.regions.saturating_add(1),
        bytes: totals.bytes.saturating_add(bytes),
        waste: totals.waste.saturating_add(waste),
        ..totals
    }
}

/// The totals with the region of a slot, if one is there.
fn with_region<P: AtRest>(
    pool: &mut P,
    records: &[RegionRec],
    region: RegionWord,
    totals: Totals,
) -> Totals
    ensures exact { result ≡ with_region (P.still pool.old) records.now region totals }
    ensures same { P.still pool.new ≡ P.still pool.old }
{
    if !region.live {
        return totals;
    }
    let bytes = bytes_of(records, region.number);
    let with_waste = with_bytes(totals, bytes, region.granules);
    with_granules(pool, region.granules, region.first, with_waste)
}

/// The totals with the regions of the first so many slots.
#[tactic(auto, unfolding(crate::specs::Counting::with_regions))]
fn with_regions<P: AtRest>(
    pool: &mut P,
    records: &[RegionRec],
    slots: u64,
    before: Totals,
) -> Totals
    ensures exact { result ≡ with_regions (P.still pool.old) records.now slots 0 before }
    ensures same { P.still pool.new ≡ P.still pool.old }
{
    let mut totals = before;
    let mut slot: u64 = 0;
    let mut left = slots;
    while left > 0 {
        let region = RegionWord::of_word(pool.load(Word::Region(slot)));
        totals = with_region(pool, records, region, totals);
        slot = slot.saturating_add(1);
        left -= 1;
    }
    totals
}

/// The totals with the lists of blocks.
#[tactic(auto, unfolding(crate::specs::Counting::with_blocks))]
fn with_blocks<P: AtRest>(pool: &mut P, totals: Totals) -> Totals
    ensures exact { result ≡ with_blocks (P.still pool.old) totals }
    ensures same { P.still pool.new ≡ P.still pool.old }
{
    let bin = bin_bytes(pool);
    let queue = queue_bytes(pool);
    let cached = cached_bytes(pool);
    Totals {
        bin,
        queue,
        cached,
        ..totals
    }
}

/// The totals with what a seat has begun and not ended.
fn with_amid<P: AtRest>(pool: &mut P, amid: Amid, totals: Totals) -> Totals
    ensures exact { result ≡ with_amid (P.still pool.old) amid totals }
    ensures same { P.still pool.new ≡ P.still pool.old }
{
    match amid {
        Amid::Offers(block) => Totals {
            bin: totals.bin.saturating_add(block_bytes(block.granules)),
            ..totals
        },
        Amid::Unlinks(block) => Totals {
            bin: totals.bin.saturating_sub(block_bytes(block.granules)),
            ..totals
        },
        Amid::Joins { .. } => {
            let joined = joined_bytes(pool, amid);
            Totals {
                private: totals.private.saturating_add(joined),
                ..totals
            }
        }
        Amid::Nothing => totals,
        Amid::Wins(_) => totals,
    }
}

/// The totals with what the first so many seats have begun and not ended.
#[tactic(auto, unfolding(crate::specs::Counting::with_seats))]
fn with_seats<P: AtRest>(pool: &mut P, seats: u64, before: Totals) -> Totals
    ensures exact { result ≡ with_seats (P.still pool.old) seats 0 before }
    ensures same { P.still pool.new ≡ P.still pool.old }
{
    let mut totals = before;
    let mut seat: u64 = 0;
    let mut left = seats;
    while left > 0 {
        let amid = pool.amid(seat);
        totals = with_amid(pool, amid, totals);
        seat = seat.saturating_add(1);
        left -= 1;
    }
    totals
}

/// The totals, of which what no other holder has is in hand.
#[tactic(auto, unfolding(crate::specs::Counting::with_hand))]
fn with_hand(totals: Totals) -> Totals
    ensures { result ≡ with_hand totals }
{
    let hand = totals
        .bytes
        .saturating_sub(totals.waste)
        .saturating_sub(totals.head)
        .saturating_sub(totals.rest)
        .saturating_sub(totals.private)
        .saturating_sub(totals.public)
        .saturating_sub(totals.object)
        .saturating_sub(totals.large_head)
        .saturating_sub(totals.slab_cache)
        .saturating_sub(totals.cached)
        .saturating_sub(totals.bin)
        .saturating_sub(totals.queue);
    Totals { hand, ..totals }
}

/// The totals of a pool: its live regions are those that a region word names, and the office's records say how many
/// bytes each has. It may be asked in the middle of calls too. No memory is taken.
#[tactic(auto, unfolding(crate::specs::Counting::totals_of))]
pub fn totals<P: AtRest>(pool: &mut P, records: &[RegionRec]) -> Totals
    ensures exact { result ≡ totals_of (P.still pool.old) records.now }
    ensures same { P.still pool.new ≡ P.still pool.old }
{
    let regions = with_regions(pool, records, MOST_REGIONS as u64, NO_TOTALS);
    let blocks = with_blocks(pool, regions);
    let seats = u64::from(pool.key().seats);
    let all = with_seats(pool, seats, blocks);
    with_hand(all)
}
