//! The step that comes next at a seat, and what the seat makes of it.

ghost use Rattle.std.specs.Prelude.{◌≡◌, Some, None, cond};
ghost use Rattle.step_local.specs.Rows.{is_made};
ghost use Rattle.step_core.specs.Steps.{gives_for, gives_at, begun_at, told_at, counted};

use pool_types::{InCall, Request, Row, Turn};
use pool_words::{Action, Seen};
use region_steps::OfficeAt;
use step_local::{At, Local, OfficeFor, is_made};
use step_parts::StepName;

/// The step that comes next: its action, the index at which a region begins that is passed to the callback with it, and
/// the kind of step that it is. Contracts speak of it; the code keeps the three apart, so that no action is copied.
#[derive(Clone, Copy)]
pub struct Step {
    pub action: Action,
    pub gives: Option<u32>,
    pub row: Row,
}

/// The index at which the region begins that the office is taken for to give back.
fn gives_for(job: OfficeFor) -> Option<u32>
    ensures { result ≡ gives_for job }
{
    match job {
        OfficeFor::Ask => None,
        OfficeFor::Put { first } | OfficeFor::Drain { first, .. } => {
            Some((first % 4294967296) as u32)
        }
    }
}

/// The index at which a region begins that is passed to the callback with the step of a position.
pub fn gives_at(at: At) -> Option<u32>
    ensures { result ≡ gives_at at }
{
    match at {
        At::Office {
            job,
            at: OfficeAt::Remove { .. },
        } => gives_for(job),
        _ => None,
    }
}

/// Which step it is, by the number of the steps before it.
pub fn name_of(action: &Action, row: Row, seat: u8, steps: u64) -> StepName
    ensures { result ≡ record { step = counted action.now steps; seat = seat; row = row } }
{
    StepName {
        step: counted(action, steps),
        seat,
        row,
    }
}

/// Begins a call at a seat. At a seat that the pool has not none begins.
pub fn begin(locals: &mut [Local], seat: u8, request: Request) -> Result<(), InCall>
    ensures locals { locals.new ≡ (begun_at locals.old seat request).0 }
    ensures answer { result ≡ (begun_at locals.old seat request).1 }
{
    let index = usize::from(seat);
    if index < locals.len() {
        locals[index].begin(request)
    } else {
        Err(InCall { seat })
    }
}

/// A seat takes what its step found, and tells what the turn came to. A seat that the pool has not learns nothing.
pub fn tell(locals: &mut [Local], seat: usize, seen: Seen) -> Turn
    ensures locals { locals.new ≡ (told_at locals.old seat seen).0 }
    ensures turn { result ≡ (told_at locals.old seat seen).1 }
{
    if seat < locals.len() {
        locals[seat].told(seen)
    } else {
        Turn::Idle
    }
}

/// The kind of a step, where it counts as made.
pub fn made(action: &Action, row: Row, seen: Seen) -> Option<Row>
    ensures { result ≡ cond (is_made action.now seen) (Some row) None }
{
    if is_made(*action, seen) {
        Some(row)
    } else {
        None
    }
}

/// How many steps there are with one more action: as many where it makes none.
fn counted(action: &Action, steps: u64) -> u64
    ensures { result ≡ counted action.now steps }
{
    match action {
        Action::Nothing => steps,
        _ => steps.saturating_add(1),
    }
}
