//! What a seat in the middle of a call has begun and not ended, of what words alone do not tell.

ghost use Rattle.std.specs.Prelude.{◌≡◌};
ghost use Rattle.word_totals.specs.Middle.{joining, boxing, removing, inserting, unlinking, winning, scanning};
ghost use Rattle.word_totals.specs.Middle.{cutting, putting, draining, uniting, resetting, amid};
ghost use Rattle.backend_bins.specs.Cut.{front_of, back_of};
ghost use Rattle.coalescer.specs.Put.{right_neighbour};

use backend_bins::{BinAt, Block, CutAt, CutCall, ScanStep};
use coalescer::{DrainAt, PutAt, PutStep};
use guards::WinAt;
use locked_chain::RemoveAt;
use mailbox::BoxAt;
use public_list::JoinAt;
use reset_steps::UniteAt;
use step_local::{At, Local, ResetAt};

/// What a seat has begun and not ended.
#[derive(Clone, Copy)]
pub enum Amid {
    /// Nothing that words do not tell.
    Nothing,
    /// A free block, both of whose guards say so, is not yet in its bin's list.
    Offers(Block),
    /// Of a free block, which is in its bin's list, the guard at its begin is won.
    Wins(Block),
    /// A block in hand is still in its bin's list.
    Unlinks(Block),
    /// What was given back to a slab was taken, and is not yet tied to its private objects; this is the first unit.
    Joins { slab: u64, first: u64 },
}

fn joining(slab: u64, at: JoinAt) -> Amid
    ensures { result ≡ joining slab at }
{
    match at {
        JoinAt::Take => Amid::Nothing,
        JoinAt::Walk { first, .. } => Amid::Joins { slab, first },
        JoinAt::Tie { first, .. } => Amid::Joins { slab, first },
    }
}

fn boxing(at: BoxAt) -> Amid
    ensures { result ≡ boxing at }
{
    match at {
        BoxAt::Join { slab, join, .. } => joining(slab, join),
        _ => Amid::Nothing,
    }
}

/// Until what is before it leads past it, a block is in its list.
fn removing(block: Block, at: RemoveAt) -> Amid
    ensures { result ≡ removing block at }
{
    match at {
        RemoveAt::Forward => Amid::Unlinks(block),
        RemoveAt::Backward { .. } => Amid::Unlinks(block),
        RemoveAt::Skip { .. } => Amid::Unlinks(block),
        RemoveAt::SkipBack { .. } => Amid::Nothing,
    }
}

fn inserting(block: Block, at: BinAt) -> Amid
    ensures { result ≡ inserting block at }
{
    match at {
        BinAt::Insert(_) => Amid::Offers(block),
        _ => Amid::Nothing,
    }
}

fn unlinking(block: Block, at: BinAt) -> Amid
    ensures { result ≡ unlinking block at }
{
    match at {
        BinAt::Lock => Amid::Unlinks(block),
        BinAt::Out(at) => removing(block, at),
        _ => Amid::Nothing,
    }
}

/// A win whose first guard is the one at the block's begin.
fn winning(block: Block, at: WinAt) -> Amid
    ensures { result ≡ winning block at }
{
    match at {
        WinAt::First => Amid::Nothing,
        WinAt::Second => Amid::Wins(block),
        WinAt::Back => Amid::Wins(block),
    }
}

fn scanning(step: ScanStep) -> Amid
    ensures { result ≡ scanning step }
{
    match step {
        ScanStep::Win { block, at } => winning(block, at),
        ScanStep::Out { block, at } => removing(block, at),
        _ => Amid::Nothing,
    }
}

/// The rest before the piece.
fn front_of(call: CutCall) -> Block
    ensures { result ≡ front_of call }
{
    Block {
        first: call.block.first,
        granules: call.piece.first.saturating_sub(call.block.first),
    }
}

/// The rest behind the piece.
fn back_of(call: CutCall) -> Block
    ensures { result ≡ back_of call }
{
    Block {
        first: call.piece.end(),
        granules: call.block.end().saturating_sub(call.piece.end()),
    }
}

fn cutting(call: CutCall, at: CutAt) -> Amid
    ensures { result ≡ cutting call at }
{
    match at {
        CutAt::Front(at) => inserting(front_of(call), at),
        CutAt::Back(at) => inserting(back_of(call), at),
        _ => Amid::Nothing,
    }
}

/// The block behind the one that is put.
fn right_neighbour(put: PutAt, granules: u64) -> Block
    ensures { result ≡ right_neighbour put granules }
{
    Block {
        first: put.block.end(),
        granules,
    }
}

/// A put wins the guard between both blocks first, which is at the begin of the right one alone.
fn putting(put: PutAt) -> Amid
    ensures { result ≡ putting put }
{
    match put.step {
        PutStep::UnlinkLeft { neighbour, at } => unlinking(neighbour, at),
        PutStep::WinRight { granules, at } => winning(right_neighbour(put, granules), at),
        PutStep::UnlinkRight { neighbour, at } => unlinking(neighbour, at),
        PutStep::Bin(at) => inserting(put.block, at),
        _ => Amid::Nothing,
    }
}

fn draining(at: DrainAt) -> Amid
    ensures { result ≡ draining at }
{
    match at {
        DrainAt::Put { at, .. } => putting(at),
        _ => Amid::Nothing,
    }
}

fn uniting(at: UniteAt) -> Amid
    ensures { result ≡ uniting at }
{
    match at {
        UniteAt::Win { block, at } => winning(block, at),
        UniteAt::Unlink { block, at } => unlinking(block, at),
        _ => Amid::Nothing,
    }
}

/// A reset that has this block in hand.
fn resetting(block: Block, at: ResetAt) -> Amid
    ensures { result ≡ resetting block at }
{
    match at {
        ResetAt::Unite { at, .. } => uniting(at),
        ResetAt::Bin(at) => inserting(block, at),
        _ => Amid::Nothing,
    }
}

impl Amid {
    /// What the seat has begun and not ended.
    #[tactic(auto, unfolding(crate::specs::Middle::amid))]
    pub fn of(local: &Local) -> Amid
        ensures { result ≡ amid local.now }
    {
        match local.at {
            At::Mailbox(at) => boxing(at),
            At::Join { slab, at, .. } => joining(slab, at),
            At::Scan(at) => scanning(at.step),
            At::Cut(at) => cutting(local.cut_call(), at),
            At::Whole(at) => inserting(local.whole_call().block, at),
            At::Drain(at) => draining(at),
            At::Put(at) => putting(at),
            At::Reset(at) => resetting(local.call.block, at),
            _ => Amid::Nothing,
        }
    }
}
