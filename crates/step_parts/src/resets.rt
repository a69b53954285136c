//! What a reset moves: objects that are held, large ones and cached and queued blocks, and the blocks of whole regions.

ghost use Rattle.std.specs.Prelude.{◌≡◌};
ghost use Rattle.heap_slabs.specs.Slabs.{record_at};
ghost use Rattle.reset_steps.specs.Evict.{unit_at};
ghost use Rattle.step_parts.specs.Resets.{object_at, freed_in, strip_moved, evict_moved, clear_moved, unqueue_moved};
ghost use Rattle.step_parts.specs.Resets.{unite_moved, reset_moved};

use crate::backend::{bin_moved, win_moved};
use crate::objects::{given_up, large_ended};
use heap_slabs::records::unit_of;
use part_model::Holder;
use pool_types::geometry::{GRANULE_BYTES, LINE_BYTES, UNIT_BYTES};
use reset_steps::{ClearAt, EvictAt, StripAt, UniteAt, UnqueueAt};
use step_local::{Local, Object, ResetAt};
use word_codes::{Kind, link_of};
use word_parts::{Chain, Moved};

/// The object of a mark that begins in this unit and lies in this kind. Where it is in its region is not asked.
fn object_at(unit: u64, mark: u64, kind: Kind) -> Object
    ensures { result ≡ object_at unit mark kind }
{
    Object {
        number: 0,
        offset: 0,
        unit,
        mark,
        kind,
    }
}

/// An object of a slab that the heap keeps becomes private.
fn freed_in(local: &Local, slab: u64, object: u64, mark: u64) -> Moved
    ensures { result ≡ freed_in slab object mark (record_at local.now.heap.slabs.records slab) }
{
    match local.heap.slabs.find(slab) {
        Some(kept) => {
            let unit = unit_of(kept.slab, kept.class, object);
            let held = object_at(unit, mark, Kind::Slab(kept.class));
            given_up(held, Holder::Private)
        }
        None => Moved::Nothing,
    }
}

fn strip_moved(local: &Local, slab: u64, at: StripAt) -> Moved
    ensures { result ≡ strip_moved local.now slab at }
{
    match at {
        StripAt::End { object, mark } => freed_in(local, slab, object, mark),
        StripAt::Mark { .. } => Moved::Nothing,
    }
}

/// The unit at which a line of a granule begins.
fn unit_at(granule: u64, line: u64) -> u64
    ensures { result ≡ unit_at granule line }
{
    granule
        .saturating_mul(GRANULE_BYTES / UNIT_BYTES)
        .saturating_add(line.saturating_mul(LINE_BYTES / UNIT_BYTES))
}

/// A large object that is held comes into the hand with its block.
fn evict_moved(at: EvictAt) -> Moved
    ensures { result ≡ evict_moved at }
{
    match at {
        EvictAt::End {
            granule,
            block,
            line,
            mark,
        } => {
            let kind = Kind::Large {
                first: block.first,
                granules: block.granules,
            };
            large_ended(object_at(unit_at(granule, line), mark, kind))
        }
        EvictAt::Kind { .. } | EvictAt::Mark { .. } => Moved::Nothing,
    }
}

/// All blocks of a cache bin come into the hand.
fn clear_moved(granules: u64, at: ClearAt) -> Moved
    ensures { result ≡ clear_moved granules at }
{
    match at {
        ClearAt::Cut => Moved::Cut {
            granules,
            kept: None,
        },
        ClearAt::Peek(_)
        | ClearAt::Lock
        | ClearAt::Head
        | ClearAt::Link(_)
        | ClearAt::Zero(_)
        | ClearAt::Unlock => Moved::Nothing,
    }
}

/// All blocks of the queue come into the hand.
fn unqueue_moved(at: UnqueueAt, found: u64) -> Moved
    ensures { result ≡ unqueue_moved at found }
{
    match at {
        UnqueueAt::Take => Moved::Taken {
            chain: Chain::Queued,
            first: link_of(found),
        },
        UnqueueAt::Link { .. } => Moved::Nothing,
    }
}

/// A block of a region comes out of its bin.
fn unite_moved(seat: u8, at: UniteAt) -> Moved
    ensures { result ≡ unite_moved seat at }
{
    match at {
        UniteAt::Win { block, at } => win_moved(block, seat, at),
        UniteAt::Size { .. } | UniteAt::Unlink { .. } => Moved::Nothing,
    }
}

/// Any step of a reset that calls do not make.
pub(crate) fn reset_moved(local: &Local, at: ResetAt, found: u64) -> Moved
    ensures { result ≡ reset_moved local.now at found }
{
    match at {
        ResetAt::Strip { slab, at } => strip_moved(local, slab, at),
        ResetAt::Seek(_) => Moved::Nothing,
        ResetAt::Evict { at, .. } => evict_moved(at),
        ResetAt::Clear { granules, at } => clear_moved(granules, at),
        ResetAt::Unqueue(at) => unqueue_moved(at, found),
        ResetAt::Unite { at, .. } => unite_moved(local.seat, at),
        ResetAt::Bin(at) => bin_moved(local.call.block, local.seat, at),
    }
}
