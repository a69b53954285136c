//! The parts of a move: each range of bytes, with its holder before and after. What has no byte is no part.

ghost use Rattle.std.specs.Prelude.{◌≡◌, OnOk};
ghost use Rattle.word_parts.specs.Parts.{bytes_between, part_of, with_part, with_shift, large_head, large_object};
ghost use Rattle.word_parts.specs.Parts.{with_granted, with_given_up, first_object, slab_head, slab_rest};
ghost use Rattle.word_parts.specs.Parts.{private_shift, privates, with_begun, with_slab_ended, region_part};
ghost use Rattle.word_parts.specs.Parts.{with_coming, with_region_left, region_at, with_leaving};
ghost use Rattle.word_parts.specs.Parts.{chain_parts, moved_parts};

use crate::chains::{Chain, chain_shift};
use crate::places::{Spot, place_of};
use crate::shifts::{Moved, Shift, first_unit, granule_bytes};
use backend_bins::Block;
use heap_slabs::records::unit_of;
use part_model::{Holder, Part, Range};
use pool_types::geometry::UNIT_BYTES;
use pool_types::{Grant, Place, RegionRec};
use pool_words::Key;
use size_classes::numbered::{objects_of, size_of};
use std::alloc::AllocError;

/// The bytes from one unit to another.
fn bytes_between(from: u64, to: u64) -> u64
    ensures { result ≡ bytes_between from to }
{
    to.saturating_sub(from).saturating_mul(UNIT_BYTES)
}

/// The part of bytes that go from one holder to another.
fn part_of(words: &[u64], key: &Key, shift: Shift) -> Part
    ensures { result ≡ part_of key.now words.now shift }
{
    Part {
        range: Range {
            place: place_of(words, key, shift.unit),
            bytes: shift.bytes,
        },
        from: Some(shift.from),
        to: Some(shift.to),
    }
}

/// Adds a part, if it has a byte.
fn add_part(parts: &mut Vec<Part>, part: Part) -> Result<(), AllocError>
    ensures { OnOk result (parts.new.items ≡ with_part parts.old.items part) }
{
    if part.range.bytes == 0 {
        return Ok(());
    }
    parts.push(part)?;
    Ok(())
}

fn add_shift(
    parts: &mut Vec<Part>,
    words: &[u64],
    key: &Key,
    shift: Shift,
) -> Result<(), AllocError>
    ensures { OnOk result (parts.new.items ≡ with_shift key.now words.now parts.old.items shift) }
{
    add_part(parts, part_of(words, key, shift))
}

/// What lies before a large object in its block.
fn large_head(block: Block, unit: u64, from: Holder, to: Holder) -> Shift
    ensures { result ≡ large_head block unit from to }
{
    let first = first_unit(block.first);
    Shift {
        unit: first,
        bytes: bytes_between(first, unit),
        from,
        to,
    }
}

/// The large object of a block.
fn large_object(block: Block, unit: u64, from: Holder, to: Holder) -> Shift
    ensures { result ≡ large_object block unit from to }
{
    Shift {
        unit,
        bytes: bytes_between(unit, first_unit(block.end())),
        from,
        to,
    }
}

/// A block in hand is granted, with a large object in it.
fn add_granted(
    parts: &mut Vec<Part>,
    words: &[u64],
    key: &Key,
    hand: Holder,
    block: Block,
    unit: u64,
    grant: Grant,
) -> Result<(), AllocError>
    ensures { OnOk result (parts.new.items ≡ with_granted key.now words.now parts.old.items hand block unit grant) }
{
    add_shift(
        parts,
        words,
        key,
        large_head(block, unit, hand, Holder::LargeHead(grant)),
    )?;
    add_shift(
        parts,
        words,
        key,
        large_object(block, unit, hand, Holder::Object(grant)),
    )
}

/// The block of a large object comes into the hand.
fn add_given_up(
    parts: &mut Vec<Part>,
    words: &[u64],
    key: &Key,
    hand: Holder,
    block: Block,
    unit: u64,
    grant: Grant,
) -> Result<(), AllocError>
    ensures { OnOk result (parts.new.items ≡ with_given_up key.now words.now parts.old.items hand block unit grant) }
{
    add_shift(
        parts,
        words,
        key,
        large_head(block, unit, Holder::LargeHead(grant), hand),
    )?;
    add_shift(
        parts,
        words,
        key,
        large_object(block, unit, Holder::Object(grant), hand),
    )
}

/// The unit of the object of a slab that lies first in it, which is the last one of its rest.
fn first_object(slab: u64, class: u8) -> u64
    ensures { result ≡ first_object slab class }
{
    unit_of(slab, class, objects_of(class).saturating_sub(1))
}

/// What lies in a slab before its objects.
fn slab_head(slab: u64, class: u8, from: Holder, to: Holder) -> Shift
    ensures { result ≡ slab_head slab class from to }
{
    let first = first_unit(slab);
    Shift {
        unit: first,
        bytes: bytes_between(first, first_object(slab, class)),
        from,
        to,
    }
}

/// The rest of a slab, which has so many objects.
fn slab_rest(slab: u64, class: u8, objects: u64, from: Holder, to: Holder) -> Shift
    ensures { result ≡ slab_rest slab class objects from to }
{
    Shift {
        unit: first_object(slab, class),
        bytes: objects.saturating_mul(size_of(class)),
        from,
        to,
    }
}

/// A private object of a slab that ends.
fn private_shift(slab: u64, class: u8, hand: Holder, object: u64) -> Shift
    ensures { result ≡ private_shift slab class hand object }
{
    Shift {
        unit: unit_of(slab, class, object),
        bytes: size_of(class),
        from: Holder::Private,
        to: hand,
    }
}

/// A slab is begun.
fn add_begun(
    parts: &mut Vec<Part>,
    words: &[u64],
    key: &Key,
    hand: Holder,
    slab: u64,
    class: u8,
) -> Result<(), AllocError>
    ensures { OnOk result (parts.new.items ≡ with_begun key.now words.now parts.old.items hand slab class) }
{
    add_shift(
        parts,
        words,
        key,
        slab_head(slab, class, hand, Holder::Head),
    )?;
    let objects = objects_of(class);
    add_shift(
        parts,
        words,
        key,
        slab_rest(slab, class, objects, hand, Holder::Rest),
    )
}

/// The private objects of a slab that ends, of which so many were handed out, from the last one on.
fn add_privates(
    parts: &mut Vec<Part>,
    words: &[u64],
    key: &Key,
    hand: Holder,
    slab: u64,
    class: u8,
    handed: u64,
) -> Result<(), AllocError>
    ensures { OnOk result (parts.new.items ≡ privates handed key.now words.now parts.old.items hand slab class) }
{
    let mut left = handed;
    while left > 0 {
        left -= 1;
        add_shift(parts, words, key, private_shift(slab, class, hand, left))?;
    }
    Ok(())
}

/// A slab ends.
fn add_ended(
    parts: &mut Vec<Part>,
    words: &[u64],
    key: &Key,
    hand: Holder,
    slab: u64,
    class: u8,
    handed: u64,
) -> Result<(), AllocError>
    ensures { OnOk result (parts.new.items ≡ with_slab_ended key.now words.now parts.old.items hand slab class handed) }
{
    let objects = objects_of(class);
    let rest = objects.saturating_sub(handed);
    add_shift(
        parts,
        words,
        key,
        slab_head(slab, class, Holder::Head, hand),
    )?;
    add_shift(
        parts,
        words,
        key,
        slab_rest(slab, class, rest, Holder::Rest, hand),
    )?;
    add_privates(parts, words, key, hand, slab, class, handed.min(objects))
}

/// So many bytes of a region.
fn region_part(
    key: &Key,
    region: u32,
    offset: u64,
    bytes: u64,
    from: Option<Holder>,
    to: Option<Holder>,
) -> Part
    ensures { result ≡ region_part key.now region offset bytes from to }
{
    let place = Place {
        pool: key.pool,
        region,
        offset,
    };
    Part {
        range: Range { place, bytes },
        from,
        to,
    }
}

/// A region comes: what lies outside of its granules is waste, and these are in hand.
fn add_coming(
    parts: &mut Vec<Part>,
    key: &Key,
    hand: Holder,
    one: RegionRec,
) -> Result<(), AllocError>
    ensures { OnOk result (parts.new.items ≡ with_coming key.now parts.old.items hand one) }
{
    let waste = u64::from(one.waste);
    let body = granule_bytes(u64::from(one.granules));
    let end = waste.saturating_add(body);
    let rear = one.region.bytes.saturating_sub(end);
    let outside = Some(Holder::Waste);
    add_part(parts, region_part(key, one.number, 0, waste, None, outside))?;
    add_part(
        parts,
        region_part(key, one.number, waste, body, None, Some(hand)),
    )?;
    add_part(
        parts,
        region_part(key, one.number, end, rear, None, outside),
    )
}

/// A region leaves.
fn add_region_left(
    parts: &mut Vec<Part>,
    key: &Key,
    hand: Holder,
    one: RegionRec,
) -> Result<(), AllocError>
    ensures { OnOk result (parts.new.items ≡ with_region_left key.now parts.old.items hand one) }
{
    let waste = u64::from(one.waste);
    let body = granule_bytes(u64::from(one.granules));
    let end = waste.saturating_add(body);
    let rear = one.region.bytes.saturating_sub(end);
    let outside = Some(Holder::Waste);
    add_part(parts, region_part(key, one.number, 0, waste, outside, None))?;
    add_part(
        parts,
        region_part(key, one.number, waste, body, Some(hand), None),
    )?;
    add_part(
        parts,
        region_part(key, one.number, end, rear, outside, None),
    )
}

/// The region, of those that are out, whose first granule is this one.
fn region_at(regions: &[RegionRec], first: u64) -> Option<RegionRec>
    ensures { result ≡ region_at regions.now first }
{
    for one in regions {
        if u64::from(one.first) == first {
            return Some(*one);
        }
    }
    None
}

/// The region of this first granule leaves, if it is out.
fn add_leaving(
    parts: &mut Vec<Part>,
    key: &Key,
    hand: Holder,
    regions: &[RegionRec],
    first: u64,
) -> Result<(), AllocError>
    ensures { OnOk result
        (parts.new.items ≡ with_leaving key.now parts.old.items hand (region_at regions.now first)) }
{
    match region_at(regions, first) {
        Some(one) => add_region_left(parts, key, hand, one),
        None => Ok(()),
    }
}

/// The parts of a chain's items.
fn add_chain(
    parts: &mut Vec<Part>,
    words: &[u64],
    key: &Key,
    seat: u8,
    chain: Chain,
    spots: &[Spot],
) -> Result<(), AllocError>
    ensures { OnOk result (parts.new.items ≡ chain_parts key.now words.now seat chain parts.old.items spots.now) }
{
    for spot in spots {
        add_shift(
            parts,
            words,
            key,
            chain_shift(words, key, chain, seat, spot.unit),
        )?;
    }
    Ok(())
}

/// The parts of what a step moves. Of a chain that is taken, `spots` are its items.
pub fn add_moved(
    parts: &mut Vec<Part>,
    words: &[u64],
    key: &Key,
    regions: &[RegionRec],
    seat: u8,
    spots: &[Spot],
    moved: Moved,
) -> Result<(), AllocError>
    ensures { OnOk result
        (parts.new.items ≡ moved_parts key.now words.now regions.now seat parts.old.items spots.now moved) }
{
    let hand = Holder::Hand(seat);
    match moved {
        Moved::Nothing | Moved::Kept { .. } => Ok(()),
        Moved::One(shift) => add_shift(parts, words, key, shift),
        Moved::Granted { block, unit, grant } => {
            add_granted(parts, words, key, hand, block, unit, grant)
        }
        Moved::Ended { block, unit, grant } => {
            add_given_up(parts, words, key, hand, block, unit, grant)
        }
        Moved::SlabBegun { slab, class } => add_begun(parts, words, key, hand, slab, class),
        Moved::SlabEnded {
            slab,
            class,
            handed,
        } => add_ended(parts, words, key, hand, slab, class, handed),
        Moved::Taken { chain, .. } => add_chain(parts, words, key, seat, chain, spots),
        Moved::Cut { granules, .. } => {
            add_chain(parts, words, key, seat, Chain::Cached { granules }, spots)
        }
        Moved::Comes(one) => add_coming(parts, key, hand, one),
        Moved::Leaves { first } => add_leaving(parts, key, hand, regions, first),
    }
}
