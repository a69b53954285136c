//! What the step of a local moves.

ghost use Rattle.std.specs.Prelude.{◌≡◌, ℕ, false};
ghost use Rattle.step_local.specs.Course.{course};
ghost use Rattle.step_local.specs.declared.frames.Local.{Local};
ghost use Rattle.word_parts.specs.declared.shifts.Moved.{Moved};
ghost use Rattle.coalescer.specs.declared.put.PutAt.{PutAt};
ghost use Rattle.step_parts.specs.Backend.{put_moved};
ghost use Rattle.step_parts.specs.Positions.{moved_at, moved_of};

use crate::backend::{bin_moved, cut_moved, drain_moved, put_moved, scan_moved};
use crate::large::{get_moved, keep_moved, large_moved, sweep_moved};
use crate::objects::{end_moved, post_moved};
use crate::office::office_moved;
use crate::resets::reset_moved;
use crate::slabs::{adopt_moved, box_moved, join_moved, leave_moved, small_moved};
use backend_bins::{BinAt, CutAt, ScanStep};
use chain_words::PushAt;
use coalescer::PutStep;
use large_cache::{GetAt, HitAt, KeepAt, SweepAt};
use pool_types::Keeper;
use pool_words::{Action, Seen};
use public_list::PostAt;
use step_local::{At, LargeAt, Local, SmallAt, is_made};
use word_parts::Moved;

/// What the step that comes next moves where it is made, by what it finds.
fn moved_at(local: &Local, found: u64) -> Moved
    ensures { result ≡ moved_at local.now found local.now.at }
{
    let seat = local.seat;
    match local.at {
        At::Idle | At::Ready(_) | At::Look(_) | At::Mail(_) | At::Locate(_) => Moved::Nothing,
        At::Undo { .. } | At::Queue => Moved::Nothing,
        At::End(at) => end_moved(local, at),
        At::Post(at) => post_moved(local, at),
        At::Mailbox(at) => box_moved(local, at, found),
        At::Adopt(at) => adopt_moved(local, at, found),
        At::Join { at, .. } => join_moved(local, at, found),
        At::Spare(at) => leave_moved(local.fetch.spare, Keeper::Hand(seat), at),
        At::Leave { slab, at } => leave_moved(slab, Keeper::Seat(seat), at),
        At::Small(at) => small_moved(local, at),
        At::Large(at) => large_moved(local, at),
        At::Get(at) => get_moved(local, at),
        At::Keep(at) => keep_moved(local, at),
        At::Sweep(at) => sweep_moved(local, at),
        At::Scan(at) => scan_moved(local, at),
        At::Cut(at) => cut_moved(local, at),
        At::Whole(at) => bin_moved(local.ask.block, seat, at),
        At::Drain(at) => drain_moved(local, at, found),
        At::Put(at) => put_moved(local, at),
        At::Office { job, at } => office_moved(job, at),
        At::Reset(at) => reset_moved(local, at, found),
    }
}

/// Whether putting a block can move something.
fn put_may_move(step: &PutStep) -> bool
    ensures { result ≡ false → (l : Local) → (put : PutAt) → put_moved l put step.now ≡ Moved.Nothing }
{
    matches!(
        step,
        PutStep::WinLeft { .. }
            | PutStep::WinRight { .. }
            | PutStep::Queue(PushAt::Exchange { .. })
            | PutStep::Bin(BinAt::Left)
    )
}

/// Whether a step of a position can move something. Most steps move nothing, and this is asked of each: no payload is
/// copied for it.
pub(crate) fn may_move(at: &At) -> bool
    ensures { result ≡ false → (l : Local) → (f : ℕ) → moved_at l f at.now ≡ Moved.Nothing }
{
    match at {
        At::Idle | At::Ready(_) | At::Look(_) | At::Mail(_) | At::Locate(_) => false,
        At::Undo { .. } | At::Queue => false,
        At::Get(at) => matches!(at, GetAt::Hit(HitAt::Pop(_))),
        At::Keep(at) => matches!(at, KeepAt::Cut { .. } | KeepAt::SetHead { .. }),
        At::Sweep(at) => matches!(at, SweepAt::Cut(_)),
        At::Scan(at) => matches!(at.step, ScanStep::Win { .. }),
        At::Cut(at) => matches!(at, CutAt::Front(BinAt::Left) | CutAt::Back(BinAt::Left)),
        At::Whole(at) => matches!(at, BinAt::Left),
        At::Put(at) => put_may_move(&at.step),
        At::Post(PostAt::Push(at)) => matches!(at, PushAt::Exchange { .. }),
        At::Large(at) => matches!(at, LargeAt::Grant { .. }),
        At::Small(
            SmallAt::Next { .. }
            | SmallAt::Public { .. }
            | SmallAt::Own { .. }
            | SmallAt::Behind { .. },
        ) => false,
        _ => true,
    }
}

/// What the local's next step, which makes this action, moves where it finds this number. An exchange that is lost moves
/// nothing.
pub(crate) fn moved_with(local: &Local, action: &Action, found: u64) -> Moved
    requires { action.now ≡ course local.now }
    ensures { result ≡ moved_of local.now found }
{
    if is_made(*action, Seen::Word(found)) {
        moved_at(local, found)
    } else {
        Moved::Nothing
    }
}

/// What the local's next step moves, where it finds this number. An exchange that is lost moves nothing.
pub fn moved_by(local: &Local, found: u64) -> Moved
    ensures { result ≡ moved_of local.now found }
{
    moved_with(local, &local.next(), found)
}
