//! Blocks that go into bins and the queue, and out of them.

ghost use Rattle.std.specs.Prelude.{◌≡◌};
ghost use Rattle.backend_bins.specs.Cut.{front_of, back_of};
ghost use Rattle.coalescer.specs.Put.{left_neighbour, right_neighbour};
ghost use Rattle.step_parts.specs.Backend.{bin_moved, win_moved, scan_moved, cut_moved, queue_moved};
ghost use Rattle.step_parts.specs.Backend.{put_moved, drain_moved};

use backend_bins::{BinAt, Block, CutAt, CutCall, ScanAt, ScanStep};
use chain_words::PushAt;
use coalescer::{DrainAt, PutAt, PutStep};
use guards::WinAt;
use part_model::Holder;
use step_local::Local;
use word_codes::link_of;
use word_parts::{Chain, Moved, block_moved};

/// A block in hand is the bin's from the second of its guards on.
pub(crate) fn bin_moved(block: Block, seat: u8, at: BinAt) -> Moved
    ensures { result ≡ bin_moved block seat at }
{
    match at {
        BinAt::Left => block_moved(block, Holder::Hand(seat), Holder::Bin),
        BinAt::Lock | BinAt::Size | BinAt::Insert(_) | BinAt::Out(_) | BinAt::Unlock => {
            Moved::Nothing
        }
    }
}

/// A block of a bin is in the hand of who has won both its guards.
pub(crate) fn win_moved(block: Block, seat: u8, at: WinAt) -> Moved
    ensures { result ≡ win_moved block seat at }
{
    match at {
        WinAt::Second => block_moved(block, Holder::Bin, Holder::Hand(seat)),
        WinAt::First | WinAt::Back => Moved::Nothing,
    }
}

/// A scan takes a block.
pub(crate) fn scan_moved(local: &Local, at: ScanAt) -> Moved
    ensures { result ≡ scan_moved local.now at.step }
{
    match at.step {
        ScanStep::Win { block, at } => win_moved(block, local.seat, at),
        ScanStep::Peek
        | ScanStep::Lock
        | ScanStep::Head
        | ScanStep::Length { .. }
        | ScanStep::Next { .. }
        | ScanStep::Out { .. }
        | ScanStep::Unlock { .. } => Moved::Nothing,
    }
}

/// What the block has before the piece.
fn front(call: CutCall) -> Block
    ensures { result ≡ front_of call }
{
    Block {
        first: call.block.first,
        granules: call.piece.first.saturating_sub(call.block.first),
    }
}

/// What the block has behind the piece.
fn back(call: CutCall) -> Block
    ensures { result ≡ back_of call }
{
    let end = call.piece.end();
    Block {
        first: end,
        granules: call.block.end().saturating_sub(end),
    }
}

/// The rests of a block go into their bins.
pub(crate) fn cut_moved(local: &Local, at: CutAt) -> Moved
    ensures { result ≡ cut_moved local.now at }
{
    match at {
        CutAt::Front(at) => bin_moved(front(local.cut_call()), local.seat, at),
        CutAt::Back(at) => bin_moved(back(local.cut_call()), local.seat, at),
        CutAt::FrontLeft | CutAt::FrontSize | CutAt::BackLeft | CutAt::BackSize => Moved::Nothing,
    }
}

/// A block in hand is pushed onto the queue.
fn queue_moved(block: Block, seat: u8, at: PushAt) -> Moved
    ensures { result ≡ queue_moved block seat at }
{
    match at {
        PushAt::Exchange { .. } => block_moved(block, Holder::Hand(seat), Holder::Queue),
        PushAt::Look | PushAt::Link { .. } => Moved::Nothing,
    }
}

/// The block before a block that is put, of so many granules.
fn before(at: PutAt, granules: u64) -> Block
    ensures { result ≡ left_neighbour at granules }
{
    Block {
        first: at.block.first.saturating_sub(granules),
        granules,
    }
}

/// The block behind it.
fn behind(at: PutAt, granules: u64) -> Block
    ensures { result ≡ right_neighbour at granules }
{
    Block {
        first: at.block.end(),
        granules,
    }
}

/// A block is put, and takes its neighbours with it.
pub(crate) fn put_moved(local: &Local, put: PutAt) -> Moved
    ensures { result ≡ put_moved local.now put put.step }
{
    let seat = local.seat;
    match put.step {
        PutStep::WinLeft { granules, at } => win_moved(before(put, granules), seat, at),
        PutStep::WinRight { granules, at } => win_moved(behind(put, granules), seat, at),
        PutStep::Queue(at) => queue_moved(put.block, seat, at),
        PutStep::Bin(at) => bin_moved(put.block, seat, at),
        PutStep::Size
        | PutStep::Left
        | PutStep::LeftWord
        | PutStep::UnlinkLeft { .. }
        | PutStep::RightWord
        | PutStep::UnlinkRight { .. }
        | PutStep::FarLeft
        | PutStep::FarRight => Moved::Nothing,
    }
}

/// The queue is taken, and its blocks are put.
pub(crate) fn drain_moved(local: &Local, at: DrainAt, found: u64) -> Moved
    ensures { result ≡ drain_moved local.now at found }
{
    match at {
        DrainAt::Swap => Moved::Taken {
            chain: Chain::Queued,
            first: link_of(found),
        },
        DrainAt::Link { .. } => Moved::Nothing,
        DrainAt::Put { at, .. } => put_moved(local, at),
    }
}
