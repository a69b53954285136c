//! Which kind of step each position is, by the letter and number that a trace names it by, and whether a step counts
//! as made.

ghost use Rattle.std.specs.Prelude.{◌≡◌};
ghost use Rattle.step_local.specs.Rows.{look_row, end_row, post_exchange_row, post_row, mail_row, join_row, box_row};
ghost use Rattle.step_local.specs.Rows.{adopt_row, leave_row, small_row, large_row, hit_row, get_row, undo_row};
ghost use Rattle.step_local.specs.Rows.{keep_row, sweep_row, insert_row, skip_row, remove_row, bin_row, win_row};
ghost use Rattle.step_local.specs.Rows.{scan_row, cut_row, queue_push_row, put_row, drain_row, office_row, row_of};
ghost use Rattle.step_local.specs.Rows.{is_made};
ghost use Rattle.step_local.specs.Rows.{strip_row, evict_row, clear_row, unqueue_row, unite_row, reset_row};

use crate::frames::{At, LargeAt, ResetAt, SmallAt};
use backend_bins::{BinAt, CutAt, ScanStep};
use chain_words::PushAt;
use coalescer::{DrainAt, PutStep};
use guards::{Side, WinAt};
use large_cache::{GetAt, HitAt, KeepAt, SweepAt, UndoAt};
use locked_chain::{InsertAt, RemoveAt};
use mailbox::{BoxAt, MailAt};
use orphans::{AdoptAt, LeaveAt};
use pool_types::Row;
use pool_words::{Action, Seen};
use public_list::{EndAt, JoinAt, LookAt, PostAt};
use region_steps::OfficeAt;
use reset_steps::{ClearAt, EvictAt, StripAt, UniteAt, UnqueueAt};
use word_codes::{Public, link_of};

fn look_row(at: LookAt) -> Row
    ensures { result ≡ look_row at }
{
    match at {
        LookAt::Region | LookAt::Again { .. } | LookAt::Base { .. } | LookAt::Gone { .. } =>
            Row::F5,
        LookAt::Mark { .. } | LookAt::Second { .. } => Row::M1,
        LookAt::Kind { .. } | LookAt::Odd { .. } => Row::F7,
    }
}

fn end_row(at: EndAt) -> Row
    ensures { result ≡ end_row at }
{
    match at {
        EndAt::Own => Row::M4,
        EndAt::Other => Row::M5,
        EndAt::Large => Row::M6,
        EndAt::Lost { .. } => Row::F5,
    }
}

/// A push on a list on which nothing was pushed since its keeper took it is a step of its own.
fn post_exchange_row(found: Public) -> Row
    ensures { result ≡ post_exchange_row found }
{
    match found {
        Public::Null => Row::P3,
        Public::Unusable | Public::Filled(_) => Row::P4,
    }
}

fn post_row(at: PostAt) -> Row
    ensures { result ≡ post_row at }
{
    match at {
        PostAt::Push(PushAt::Look) => Row::P1,
        PostAt::Push(PushAt::Link { .. }) => Row::P2,
        PostAt::Push(PushAt::Exchange { found }) => post_exchange_row(Public::of_word(found)),
    }
}

fn mail_row(at: MailAt) -> Row
    ensures { result ≡ mail_row at }
{
    match at {
        MailAt::Next => Row::N1,
        MailAt::Push { push, .. } => match push {
            PushAt::Look => Row::N2,
            PushAt::Link { .. } => Row::N3,
            PushAt::Exchange { .. } => Row::N4,
        },
    }
}

fn join_row(at: JoinAt) -> Row
    ensures { result ≡ join_row at }
{
    match at {
        JoinAt::Take => Row::P5,
        JoinAt::Walk { .. } => Row::M1,
        JoinAt::Tie { .. } => Row::M8,
    }
}

fn box_row(at: BoxAt) -> Row
    ensures { result ≡ box_row at }
{
    match at {
        BoxAt::Take => Row::N5,
        BoxAt::Next { .. } => Row::N6,
        BoxAt::Settle { .. } => Row::N7,
        BoxAt::Join { join, .. } => join_row(join),
    }
}

fn adopt_row(at: AdoptAt) -> Row
    ensures { result ≡ adopt_row at }
{
    match at {
        AdoptAt::Take => Row::O6,
        AdoptAt::Header { .. } | AdoptAt::Next { .. } | AdoptAt::Spare { .. } => Row::O7,
        AdoptAt::Settle { .. } => Row::N7,
        AdoptAt::Own { .. } => Row::O8,
    }
}

fn leave_row(at: LeaveAt) -> Row
    ensures { result ≡ leave_row at }
{
    match at {
        LeaveAt::Close => Row::P6,
        LeaveAt::Header => Row::O1,
        LeaveAt::Disown => Row::O2,
        LeaveAt::Push(PushAt::Look) => Row::O3,
        LeaveAt::Push(PushAt::Link { .. }) => Row::O4,
        LeaveAt::Push(PushAt::Exchange { .. }) => Row::O5,
    }
}

fn small_row(at: SmallAt) -> Row
    ensures { result ≡ small_row at }
{
    match at {
        SmallAt::Next { .. } => Row::N7,
        SmallAt::Public { .. } => Row::P5,
        SmallAt::Own { .. } => Row::O8,
        SmallAt::Behind { .. } => Row::M1,
        SmallAt::Private { .. } => Row::M3,
        SmallAt::Rest { .. } => Row::M2,
        SmallAt::Uncache { .. }
        | SmallAt::Kind { .. }
        | SmallAt::Empty { .. }
        | SmallAt::Cache { .. }
        | SmallAt::Oldest { .. }
        | SmallAt::Newest { .. } => Row::F8,
    }
}

fn large_row(at: LargeAt) -> Row
    ensures { result ≡ large_row at }
{
    match at {
        LargeAt::Tick => Row::F6,
        LargeAt::Kind { .. } => Row::F8,
        LargeAt::Grant { .. } => Row::M7,
    }
}

fn hit_row(at: HitAt) -> Row
    ensures { result ≡ hit_row at }
{
    match at {
        HitAt::Link { .. } | HitAt::Age { .. } | HitAt::Mean { .. } => Row::C3,
        HitAt::Pop(_) => Row::C6,
        HitAt::SetItems(_) | HitAt::SetMean(_) => Row::C4,
    }
}

fn get_row(at: GetAt) -> Row
    ensures { result ≡ get_row at }
{
    match at {
        GetAt::Lock => Row::C1,
        GetAt::Items | GetAt::Head { .. } | GetAt::Cleaned | GetAt::Used { .. } => Row::C3,
        GetAt::Hit(at) => hit_row(at),
        GetAt::SetThreshold { .. }
        | GetAt::ClearCleaned
        | GetAt::SetTime { .. }
        | GetAt::SetUsed { .. } => Row::C4,
        GetAt::Unlock { .. } => Row::C2,
    }
}

fn undo_row(at: UndoAt) -> Row
    ensures { result ≡ undo_row at }
{
    match at {
        UndoAt::Lock => Row::C1,
        UndoAt::Used => Row::C3,
        UndoAt::SetUsed { .. } => Row::C4,
        UndoAt::Unlock => Row::C2,
    }
}

fn keep_row(at: KeepAt) -> Row
    ensures { result ≡ keep_row at }
{
    match at {
        KeepAt::Lock => Row::C1,
        KeepAt::Items
        | KeepAt::Head { .. }
        | KeepAt::Walk(_)
        | KeepAt::OldAge(_)
        | KeepAt::Used { .. } => Row::C3,
        KeepAt::Cut { .. } => Row::C7,
        KeepAt::SetHead { .. } => Row::C5,
        KeepAt::SetCleaned { .. }
        | KeepAt::SetLink { .. }
        | KeepAt::SetAge { .. }
        | KeepAt::SetItems { .. }
        | KeepAt::SetUsed { .. } => Row::C4,
        KeepAt::Unlock { .. } => Row::C2,
    }
}

fn sweep_row(at: SweepAt) -> Row
    ensures { result ≡ sweep_row at }
{
    match at {
        SweepAt::Clock => Row::F7,
        SweepAt::Lock => Row::C1,
        SweepAt::Peek
        | SweepAt::Items
        | SweepAt::Judge(_)
        | SweepAt::Head { .. }
        | SweepAt::Age(_)
        | SweepAt::Link(_) => Row::C3,
        SweepAt::Cut(_) => Row::C7,
        SweepAt::SetThreshold { .. } | SweepAt::SetItems(_) | SweepAt::SetCleaned(_) => Row::C4,
        SweepAt::Unlock => Row::C2,
    }
}

fn insert_row(at: InsertAt) -> Row
    ensures { result ≡ insert_row at }
{
    match at {
        InsertAt::Head => Row::B3,
        InsertAt::Forward { .. } => Row::B5,
        InsertAt::Backward { .. } | InsertAt::OldBackward { .. } => Row::B6,
        InsertAt::NewHead => Row::B4,
    }
}

/// The list's first item leaves by the list's head.
fn skip_row(before: Option<u64>) -> Row
    ensures { result ≡ skip_row before }
{
    match before {
        Some(_) => Row::B5,
        None => Row::B4,
    }
}

fn remove_row(at: RemoveAt) -> Row
    ensures { result ≡ remove_row at }
{
    match at {
        RemoveAt::Forward | RemoveAt::Backward { .. } => Row::B3,
        RemoveAt::Skip { backward, .. } => skip_row(link_of(backward)),
        RemoveAt::SkipBack { .. } => Row::B6,
    }
}

fn bin_row(at: BinAt) -> Row
    ensures { result ≡ bin_row at }
{
    match at {
        BinAt::Lock => Row::B1,
        BinAt::Size => Row::G3,
        BinAt::Left => Row::G4,
        BinAt::Insert(at) => insert_row(at),
        BinAt::Out(at) => remove_row(at),
        BinAt::Unlock => Row::B2,
    }
}

/// Winning a block, by the guard that is won first.
fn win_row(first: Side, at: WinAt) -> Row
    ensures { result ≡ win_row first at }
{
    match (first, at) {
        (Side::Begin, WinAt::First) | (Side::End, WinAt::Second) => Row::G1,
        (Side::Begin, WinAt::Second) | (Side::End, WinAt::First) => Row::G2,
        (Side::Begin, WinAt::Back) => Row::G3,
        (Side::End, WinAt::Back) => Row::G4,
    }
}

fn scan_row(step: ScanStep) -> Row
    ensures { result ≡ scan_row step }
{
    match step {
        ScanStep::Peek | ScanStep::Head | ScanStep::Next { .. } => Row::B3,
        ScanStep::Lock => Row::B1,
        ScanStep::Length { .. } => Row::G7,
        ScanStep::Win { at, .. } => win_row(Side::Begin, at),
        ScanStep::Out { at, .. } => remove_row(at),
        ScanStep::Unlock { .. } => Row::B2,
    }
}

fn cut_row(at: CutAt) -> Row
    ensures { result ≡ cut_row at }
{
    match at {
        CutAt::FrontLeft | CutAt::BackLeft => Row::G6,
        CutAt::FrontSize | CutAt::BackSize => Row::G5,
        CutAt::Front(at) | CutAt::Back(at) => bin_row(at),
    }
}

fn queue_push_row(at: PushAt) -> Row
    ensures { result ≡ queue_push_row at }
{
    match at {
        PushAt::Look => Row::Q1,
        PushAt::Link { .. } => Row::Q2,
        PushAt::Exchange { .. } => Row::Q3,
    }
}

fn put_row(step: PutStep) -> Row
    ensures { result ≡ put_row step }
{
    match step {
        PutStep::Size => Row::G5,
        PutStep::Left => Row::G6,
        PutStep::LeftWord | PutStep::FarLeft => Row::G8,
        PutStep::RightWord | PutStep::FarRight => Row::G7,
        PutStep::WinLeft { at, .. } => win_row(Side::End, at),
        PutStep::WinRight { at, .. } => win_row(Side::Begin, at),
        PutStep::UnlinkLeft { at, .. } | PutStep::UnlinkRight { at, .. } => bin_row(at),
        PutStep::Queue(at) => queue_push_row(at),
        PutStep::Bin(at) => bin_row(at),
    }
}

fn drain_row(at: DrainAt) -> Row
    ensures { result ≡ drain_row at }
{
    match at {
        DrainAt::Swap => Row::Q4,
        DrainAt::Link { .. } => Row::Q5,
        DrainAt::Put { at, .. } => put_row(at.step),
    }
}

fn office_row(at: OfficeAt) -> Row
    ensures { result ≡ office_row at }
{
    match at {
        OfficeAt::Lock => Row::F1,
        OfficeAt::Region { .. } => Row::F5,
        OfficeAt::Take { .. } => Row::F9,
        OfficeAt::Base { .. } | OfficeAt::Enter { .. } => Row::F3,
        OfficeAt::WallSize { .. } | OfficeAt::FirstSize { .. } => Row::G5,
        OfficeAt::WallLeft { .. } | OfficeAt::LastLeft { .. } => Row::G6,
        OfficeAt::Remove { .. } => Row::F4,
        OfficeAt::Back { .. } => Row::F10,
        OfficeAt::Unlock { .. } => Row::F2,
    }
}

fn strip_row(at: StripAt) -> Row
    ensures { result ≡ strip_row at }
{
    match at {
        StripAt::Mark { .. } => Row::M1,
        StripAt::End { .. } => Row::M4,
    }
}

fn evict_row(at: EvictAt) -> Row
    ensures { result ≡ evict_row at }
{
    match at {
        EvictAt::Kind { .. } => Row::F7,
        EvictAt::Mark { .. } => Row::M1,
        EvictAt::End { .. } => Row::M6,
    }
}

fn clear_row(at: ClearAt) -> Row
    ensures { result ≡ clear_row at }
{
    match at {
        ClearAt::Peek(_) | ClearAt::Head | ClearAt::Link(_) => Row::C3,
        ClearAt::Lock => Row::C1,
        ClearAt::Cut => Row::C7,
        ClearAt::Zero(_) => Row::C4,
        ClearAt::Unlock => Row::C2,
    }
}

fn unqueue_row(at: UnqueueAt) -> Row
    ensures { result ≡ unqueue_row at }
{
    match at {
        UnqueueAt::Take => Row::Q4,
        UnqueueAt::Link { .. } => Row::Q5,
    }
}

fn unite_row(at: UniteAt) -> Row
    ensures { result ≡ unite_row at }
{
    match at {
        UniteAt::Size { .. } => Row::G7,
        UniteAt::Win { at, .. } => win_row(Side::Begin, at),
        UniteAt::Unlink { at, .. } => bin_row(at),
    }
}

fn reset_row(at: ResetAt) -> Row
    ensures { result ≡ reset_row at }
{
    match at {
        ResetAt::Strip { at, .. } => strip_row(at),
        ResetAt::Seek(_) => Row::F5,
        ResetAt::Evict { at, .. } => evict_row(at),
        ResetAt::Clear { at, .. } => clear_row(at),
        ResetAt::Unqueue(at) => unqueue_row(at),
        ResetAt::Unite { at, .. } => unite_row(at),
        ResetAt::Bin(at) => bin_row(at),
    }
}

/// The kind of the step that a position makes; `Nothing` where it makes none.
pub fn row_of(at: At) -> Row
    ensures { result ≡ row_of at }
{
    match at {
        At::Idle | At::Ready(_) => Row::Nothing,
        At::Look(at) => look_row(at),
        At::End(at) => end_row(at),
        At::Post(at) => post_row(at),
        At::Mail(at) => mail_row(at),
        At::Mailbox(at) => box_row(at),
        At::Adopt(at) => adopt_row(at),
        At::Join { at, .. } => join_row(at),
        At::Spare(at) | At::Leave { at, .. } => leave_row(at),
        At::Locate(_) => Row::F5,
        At::Small(at) => small_row(at),
        At::Large(at) => large_row(at),
        At::Get(at) => get_row(at),
        At::Undo { at, .. } => undo_row(at),
        At::Keep(at) => keep_row(at),
        At::Sweep(at) => sweep_row(at),
        At::Scan(at) => scan_row(at.step),
        At::Cut(at) => cut_row(at),
        At::Queue => Row::Q1,
        At::Whole(at) => bin_row(at),
        At::Drain(at) => drain_row(at),
        At::Put(at) => put_row(at.step),
        At::Office { at, .. } => office_row(at),
        At::Reset(at) => reset_row(at),
    }
}

/// Whether a step counts as made: an exchange that found another value does not, nor does a taking of an office that
/// is out, nor what is no step.
pub fn is_made(action: Action, seen: Seen) -> bool
    ensures { result ≡ is_made action seen }
{
    match action {
        Action::Exchange { from, .. } => seen.word() == from,
        Action::TakeOffice(_) => !matches!(seen, Seen::OfficeOut),
        Action::Nothing => false,
        _ => true,
    }
}
