//! The blocks that a seat has in hand, by its position: where its call is between the step that took a block and the
//! step that leaves it to another holder.

use super::granules::Places;
use backend_bins::{BinAt, Block, CutAt, ScanAt, ScanStep};
use coalescer::{DrainAt, PutAt, PutStep};
use large_cache::{Cleanup, GetAt, HitAt, KeepAt, SweepAt};
use pool_types::geometry::SLAB_GRANULES;
use region_steps::{OfficeAt, OfficeEnd};
use step_local::{At, LargeAt, Local, OfficeFor, PutFor, Served, SmallAt, Stage};

/// Whether a block that is put into its bin is the bin's already.
fn is_binned(at: BinAt) -> bool {
    match at {
        BinAt::Lock | BinAt::Size | BinAt::Left => false,
        BinAt::Insert(_) | BinAt::Out(_) | BinAt::Unlock => true,
    }
}

/// Whether a large object is being got from a block that was cached.
fn has_hit(local: &Local) -> bool {
    matches!(local.call.stage, Stage::Getting) && !local.call.missed
}

/// A slab that is about to be begun, or to be cached.
fn add_small(places: &mut Places, at: SmallAt) {
    match at {
        SmallAt::Next { slab }
        | SmallAt::Public { slab }
        | SmallAt::Own { slab }
        | SmallAt::Kind { slab }
        | SmallAt::Cache { slab } => places.add(Block {
            first: slab,
            granules: SLAB_GRANULES,
        }),
        SmallAt::Uncache { .. }
        | SmallAt::Behind { .. }
        | SmallAt::Private { .. }
        | SmallAt::Rest { .. }
        | SmallAt::Empty { .. }
        | SmallAt::Oldest { .. }
        | SmallAt::Newest { .. } => {}
    }
}

/// A block that a scan took.
fn add_scan(places: &mut Places, at: ScanAt) {
    match at.step {
        ScanStep::Out { block, .. } | ScanStep::Unlock { took: Some(block) } => places.add(block),
        _ => {}
    }
}

/// A block that is cut: its piece, and the rests that are in no bin yet.
fn add_cut(places: &mut Places, local: &Local, at: CutAt) {
    let call = local.cut_call();
    let (front, back) = match at {
        CutAt::FrontLeft | CutAt::FrontSize | CutAt::BackLeft | CutAt::BackSize => (true, true),
        CutAt::Front(at) => (!is_binned(at), true),
        CutAt::Back(at) => (false, !is_binned(at)),
    };
    places.add(call.piece);
    if front {
        places.add(Block {
            first: call.block.first,
            granules: call.piece.first.saturating_sub(call.block.first),
        });
    }
    if back {
        places.add(Block {
            first: call.piece.end(),
            granules: call.block.end().saturating_sub(call.piece.end()),
        });
    }
}

/// A block that is put, with the neighbours that it has.
fn add_put(places: &mut Places, put: PutAt) {
    match put.step {
        PutStep::Bin(at) if is_binned(at) => {}
        _ => places.add(put.block),
    }
}

/// What was taken from the queue.
fn add_drain(places: &mut Places, at: DrainAt) {
    match at {
        DrainAt::Swap => {}
        DrainAt::Link { first } => places.add_queued(Some(first)),
        DrainAt::Put { rest, at } => {
            add_put(places, at);
            places.add_queued(rest);
        }
    }
}

/// A region that came.
fn add_obtained(places: &mut Places, at: OfficeAt) {
    match at {
        OfficeAt::WallSize { came }
        | OfficeAt::WallLeft { came }
        | OfficeAt::FirstSize { came }
        | OfficeAt::LastLeft { came }
        | OfficeAt::Back {
            end: OfficeEnd::Obtained(came),
        }
        | OfficeAt::Unlock {
            end: OfficeEnd::Obtained(came),
        } => places.add(Block {
            first: u64::from(came.first),
            granules: u64::from(came.granules),
        }),
        _ => {}
    }
}

/// Whether a region that is to be given back has not left yet.
fn is_held_still(at: OfficeAt) -> bool {
    !matches!(at, OfficeAt::Back { .. } | OfficeAt::Unlock { .. })
}

/// What the office is taken with.
fn add_office(places: &mut Places, job: OfficeFor, at: OfficeAt) {
    match job {
        OfficeFor::Ask => add_obtained(places, at),
        OfficeFor::Put { first } => {
            if is_held_still(at) {
                places.add_region(first);
            }
        }
        OfficeFor::Drain { first, rest } => {
            if is_held_still(at) {
                places.add_region(first);
            }
            places.add_queued(rest);
        }
    }
}

/// A block that was taken from the cache.
fn add_get(places: &mut Places, local: &Local, at: GetAt) {
    let granules = local.cache_call().granules;
    match at {
        GetAt::Hit(HitAt::SetItems(newest) | HitAt::SetMean(newest)) => places.add(Block {
            first: newest.block,
            granules,
        }),
        GetAt::SetTime { block: Some(first) }
        | GetAt::Used { block: Some(first) }
        | GetAt::SetUsed {
            block: Some(first),
            ..
        }
        | GetAt::Unlock { block: Some(first) } => places.add(Block { first, granules }),
        _ => {}
    }
}

/// Whether a block that is put into the cache is the cache's already, and the block that it drove out.
fn kept_by(at: KeepAt) -> (bool, Option<u64>) {
    match at {
        KeepAt::Lock
        | KeepAt::Items
        | KeepAt::Head { .. }
        | KeepAt::Walk(_)
        | KeepAt::OldAge(_)
        | KeepAt::Cut { .. } => (false, None),
        KeepAt::SetCleaned { tail, .. } => (false, Some(tail.block)),
        KeepAt::SetLink { released, .. }
        | KeepAt::SetAge { released, .. }
        | KeepAt::SetHead { released, .. } => (false, released),
        KeepAt::SetItems { released, .. }
        | KeepAt::Used { released }
        | KeepAt::SetUsed { released, .. }
        | KeepAt::Unlock { released } => (true, released),
    }
}

fn add_keep(places: &mut Places, local: &Local, at: KeepAt) {
    let block = local.call.block;
    let (is_kept, released) = kept_by(at);
    if !is_kept {
        places.add(block);
    }
    if let Some(first) = released {
        places.add(Block { first, ..block });
    }
}

/// The blocks that a cleanup cut off and has not put yet.
fn add_released(places: &mut Places, local: &Local) {
    for index in 0..local.released.len() {
        if let Some(first) = local.released.get(index) {
            places.add(Block {
                first,
                granules: local.sweep.granules,
            });
        }
    }
}

/// The block of a large object that waits until a cleanup is done.
fn add_aside(places: &mut Places, local: &Local) {
    if matches!(local.sweep.cleanup, Cleanup::Regular) && has_hit(local) {
        places.add(local.call.block);
    }
}

fn add_sweep(places: &mut Places, local: &Local, at: SweepAt) {
    add_aside(places, local);
    if let SweepAt::SetItems(_) | SweepAt::SetCleaned(_) | SweepAt::Unlock = at {
        add_released(places, local);
    }
}

/// What is in hand beside a block that is put.
fn add_beside(places: &mut Places, local: &Local) {
    if let PutFor::Swept = local.put {
        add_aside(places, local);
        add_released(places, local);
    }
}

/// The block of a large object that was freed, or is about to be granted.
fn add_large(places: &mut Places, local: &Local, at: LargeAt) {
    match (at, local.call.stage) {
        (LargeAt::Tick, Stage::Getting) => {}
        _ => places.add(local.call.block),
    }
}

/// All blocks that a seat has in hand. No seat is amid a reset.
pub fn add_hand(places: &mut Places, local: &Local) {
    match local.at {
        At::Small(at) => add_small(places, at),
        At::Scan(at) => add_scan(places, at),
        At::Cut(at) => add_cut(places, local, at),
        At::Whole(at) => {
            if !is_binned(at) {
                places.add(local.whole_call().block);
            }
        }
        At::Drain(at) => add_drain(places, at),
        At::Put(at) => {
            add_put(places, at);
            add_beside(places, local);
        }
        At::Office { job, at } => {
            add_office(places, job, at);
            if let OfficeFor::Put { .. } = job {
                add_beside(places, local);
            }
        }
        At::Get(at) => add_get(places, local, at),
        At::Keep(at) => add_keep(places, local, at),
        At::Sweep(at) => add_sweep(places, local, at),
        At::Large(at) => add_large(places, local, at),
        At::Locate(_) => {
            if let Served::Large { .. } = local.call.served {
                places.add(local.call.block);
            }
        }
        _ => {}
    }
}
