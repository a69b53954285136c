//! Large objects, and blocks that go into the cache of large blocks and out of it.

ghost use Rattle.std.specs.Prelude.{◌≡◌};
ghost use Rattle.step_parts.specs.Large.{uncached, large_moved, hit_moved, get_moved, keep_moved};
ghost use Rattle.step_parts.specs.Large.{sweep_moved};

use crate::objects::large_granted;
use backend_bins::Block;
use large_cache::{GetAt, HitAt, KeepAt, SweepAt};
use part_model::Holder;
use step_local::{LargeAt, Local};
use word_parts::{Moved, block_moved, cached_in};

/// A block of a cache bin comes into the hand.
fn uncached(first: u64, granules: u64, seat: u8) -> Moved
    ensures { result ≡ uncached first granules seat }
{
    block_moved(
        Block { first, granules },
        cached_in(granules),
        Holder::Hand(seat),
    )
}

/// A large object is granted.
pub(crate) fn large_moved(local: &Local, at: LargeAt) -> Moved
    ensures { result ≡ large_moved local.now at }
{
    match at {
        LargeAt::Grant { unit } => large_granted(local, unit),
        LargeAt::Tick | LargeAt::Kind { .. } => Moved::Nothing,
    }
}

fn hit_moved(local: &Local, at: HitAt) -> Moved
    ensures { result ≡ hit_moved local.now at }
{
    match at {
        HitAt::Pop(newest) => {
            let granules = local.cache_call().granules;
            uncached(newest.block, granules, local.seat)
        }
        HitAt::Link { .. }
        | HitAt::Age { .. }
        | HitAt::Mean { .. }
        | HitAt::SetItems(_)
        | HitAt::SetMean(_) => Moved::Nothing,
    }
}

/// The newest block of a cache bin is taken.
pub(crate) fn get_moved(local: &Local, at: GetAt) -> Moved
    ensures { result ≡ get_moved local.now at }
{
    match at {
        GetAt::Hit(at) => hit_moved(local, at),
        GetAt::Lock
        | GetAt::Items
        | GetAt::Head { .. }
        | GetAt::Cleaned
        | GetAt::SetThreshold { .. }
        | GetAt::ClearCleaned
        | GetAt::SetTime { .. }
        | GetAt::Used { .. }
        | GetAt::SetUsed { .. }
        | GetAt::Unlock { .. } => Moved::Nothing,
    }
}

/// A block is cached, and the oldest one is released where there are too many.
pub(crate) fn keep_moved(local: &Local, at: KeepAt) -> Moved
    ensures { result ≡ keep_moved local.now at }
{
    let block = local.call.block;
    match at {
        KeepAt::Cut { tail, .. } => uncached(tail.block, block.granules, local.seat),
        KeepAt::SetHead { .. } => {
            block_moved(block, Holder::Hand(local.seat), cached_in(block.granules))
        }
        KeepAt::Lock
        | KeepAt::Items
        | KeepAt::Head { .. }
        | KeepAt::Walk(_)
        | KeepAt::OldAge(_)
        | KeepAt::SetCleaned { .. }
        | KeepAt::SetLink { .. }
        | KeepAt::SetAge { .. }
        | KeepAt::SetItems { .. }
        | KeepAt::Used { .. }
        | KeepAt::SetUsed { .. }
        | KeepAt::Unlock { .. } => Moved::Nothing,
    }
}

/// The blocks of a cache bin that have lain there too long are cut off.
pub(crate) fn sweep_moved(local: &Local, at: SweepAt) -> Moved
    ensures { result ≡ sweep_moved local.now at }
{
    match at {
        SweepAt::Cut(walk) => Moved::Cut {
            granules: local.sweep.granules,
            kept: walk.kept,
        },
        SweepAt::Clock
        | SweepAt::Peek
        | SweepAt::Lock
        | SweepAt::Items
        | SweepAt::Judge(_)
        | SweepAt::SetThreshold { .. }
        | SweepAt::Head { .. }
        | SweepAt::Age(_)
        | SweepAt::Link(_)
        | SweepAt::SetItems(_)
        | SweepAt::SetCleaned(_)
        | SweepAt::Unlock => Moved::Nothing,
    }
}
