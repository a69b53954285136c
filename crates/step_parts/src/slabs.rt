//! Slabs that begin and end, that go from keeper to keeper, and what was given back to them.

ghost use Rattle.std.specs.Prelude.{◌≡◌};
ghost use Rattle.heap_slabs.specs.Slabs.{record_at};
ghost use Rattle.step_parts.specs.Slabs.{begun_as, ended_as, small_moved, listed_as, join_moved, box_moved};
ghost use Rattle.step_parts.specs.Slabs.{slab_moved, adopt_moved, leave_moved};

use crate::objects::small_granted;
use backend_bins::Block;
use chain_words::PushAt;
use mailbox::BoxAt;
use orphans::{AdoptAt, LeaveAt};
use part_model::Holder;
use pool_types::Keeper;
use pool_types::geometry::SLAB_GRANULES;
use public_list::JoinAt;
use size_classes::numbered::size_of;
use step_local::{Local, Served, SmallAt};
use word_codes::{Public, link_of};
use word_parts::{Chain, Moved, block_moved};

/// The block of a slab goes from one holder to another.
fn slab_moved(slab: u64, from: Holder, to: Holder) -> Moved
    ensures { result ≡ slab_moved slab from to }
{
    let block = Block {
        first: slab,
        granules: SLAB_GRANULES,
    };
    block_moved(block, from, to)
}

/// A slab of the class that is served is begun.
fn slab_begun(local: &Local, slab: u64) -> Moved
    ensures { result ≡ begun_as slab local.now.call.served }
{
    match local.call.served {
        Served::Small { class } => Moved::SlabBegun { slab, class },
        Served::Large { .. } => Moved::Nothing,
    }
}

/// A slab that the heap keeps ends.
fn slab_ended(local: &Local, slab: u64) -> Moved
    ensures { result ≡ ended_as slab (record_at local.now.heap.slabs.records slab) }
{
    match local.heap.slabs.find(slab) {
        Some(kept) => Moved::SlabEnded {
            slab,
            class: kept.class,
            handed: kept.handed,
        },
        None => Moved::Nothing,
    }
}

/// Slabs that are begun, their objects that are granted, and slabs that end.
pub(crate) fn small_moved(local: &Local, at: SmallAt) -> Moved
    ensures { result ≡ small_moved local.now at }
{
    let hand = Holder::Hand(local.seat);
    let cache = Holder::SlabCache(local.seat);
    match at {
        SmallAt::Kind { slab } => slab_begun(local, slab),
        SmallAt::Private { head, .. } => small_granted(local, head, Holder::Private),
        SmallAt::Rest { unit, .. } => small_granted(local, unit, Holder::Rest),
        SmallAt::Empty { slab } => slab_ended(local, slab),
        SmallAt::Cache { slab } => slab_moved(slab, hand, cache),
        SmallAt::Uncache { slab } | SmallAt::Oldest { slab } | SmallAt::Newest { slab } => {
            slab_moved(slab, cache, hand)
        }
        SmallAt::Next { .. }
        | SmallAt::Public { .. }
        | SmallAt::Own { .. }
        | SmallAt::Behind { .. } => Moved::Nothing,
    }
}

/// All that was given back to a slab of this class is taken.
fn listed(class: u8, public: Public) -> Moved
    ensures { result ≡ listed_as class public }
{
    match public {
        Public::Filled(unit) => Moved::Taken {
            chain: Chain::Listed {
                bytes: size_of(class),
            },
            first: Some(unit),
        },
        Public::Null | Public::Unusable => Moved::Nothing,
    }
}

/// What was given back to a slab is joined.
pub(crate) fn join_moved(local: &Local, at: JoinAt, found: u64) -> Moved
    ensures { result ≡ join_moved local.now at found }
{
    match at {
        JoinAt::Take => listed(local.fetch.class, Public::of_word(found)),
        JoinAt::Walk { .. } | JoinAt::Tie { .. } => Moved::Nothing,
    }
}

/// A mailbox is taken.
pub(crate) fn box_moved(local: &Local, at: BoxAt, found: u64) -> Moved
    ensures { result ≡ box_moved local.now at found }
{
    match at {
        BoxAt::Join { join, .. } => join_moved(local, join, found),
        BoxAt::Take | BoxAt::Next { .. } | BoxAt::Settle { .. } => Moved::Nothing,
    }
}

/// Orphans are taken, and adopted.
pub(crate) fn adopt_moved(local: &Local, at: AdoptAt, found: u64) -> Moved
    ensures { result ≡ adopt_moved local.now at found }
{
    match at {
        AdoptAt::Take => Moved::Taken {
            chain: Chain::Orphans,
            first: link_of(found),
        },
        AdoptAt::Own { slab, .. } => Moved::Kept {
            slab,
            from: Keeper::Hand(local.seat),
            to: Keeper::Seat(local.seat),
        },
        AdoptAt::Header { .. }
        | AdoptAt::Next { .. }
        | AdoptAt::Settle { .. }
        | AdoptAt::Spare { .. } => Moved::Nothing,
    }
}

/// A slab is left, or pushed back, by this keeper.
pub(crate) fn leave_moved(slab: u64, keeper: Keeper, at: LeaveAt) -> Moved
    ensures { result ≡ leave_moved slab keeper at }
{
    match at {
        LeaveAt::Push(PushAt::Exchange { .. }) => Moved::Kept {
            slab,
            from: keeper,
            to: Keeper::Orphan,
        },
        LeaveAt::Push(PushAt::Look | PushAt::Link { .. }) => Moved::Nothing,
        LeaveAt::Close | LeaveAt::Header | LeaveAt::Disown => Moved::Nothing,
    }
}
