//! Objects that are granted, given up, or given back.

ghost use Rattle.std.specs.Prelude.{◌≡◌};
ghost use Rattle.step_parts.specs.Objects.{small_bytes, next_grant, given_as, given_up, large_ended_by, large_ended};
ghost use Rattle.step_parts.specs.Objects.{end_moved, post_moved, small_granted, large_granted};

use backend_bins::Block;
use chain_words::PushAt;
use part_model::Holder;
use pool_types::Grant;
use public_list::{EndAt, PostAt};
use size_classes::numbered::size_of;
use step_local::{Local, Object, Served};
use word_codes::{Kind, Mark};
use word_parts::{Moved, Shift};

/// The bytes of an object of a slab.
fn small_bytes(kind: Kind) -> u64
    ensures { result ≡ small_bytes kind }
{
    match kind {
        Kind::Slab(class) => size_of(class),
        Kind::Nothing | Kind::CachedSlab | Kind::Large { .. } => 0,
    }
}

/// The seat's next grant.
pub(crate) fn next_grant(local: &Local) -> Grant
    ensures { result ≡ next_grant local.now }
{
    Grant {
        seat: local.seat,
        number: local.last.saturating_add(1),
    }
}

/// A small object that is held goes to this holder.
pub(crate) fn given_up(object: Object, to: Holder) -> Moved
    ensures { result ≡ given_up object to }
{
    match Mark::of_word(object.mark) {
        Mark::Granted(grant) => Moved::One(Shift {
            unit: object.unit,
            bytes: small_bytes(object.kind),
            from: Holder::Object(grant),
            to,
        }),
        _ => Moved::Nothing,
    }
}

/// A large object that was granted comes into the hand with its block.
fn large_ended_by(unit: u64, kind: Kind, grant: Grant) -> Moved
    ensures { result ≡ large_ended_by unit kind grant }
{
    match kind {
        Kind::Large { first, granules } => Moved::Ended {
            block: Block { first, granules },
            unit,
            grant,
        },
        Kind::Nothing | Kind::Slab(_) | Kind::CachedSlab => Moved::Nothing,
    }
}

/// A large object comes into the hand with its block.
pub(crate) fn large_ended(object: Object) -> Moved
    ensures { result ≡ large_ended object }
{
    match Mark::of_word(object.mark) {
        Mark::Granted(grant) => large_ended_by(object.unit, object.kind, grant),
        _ => Moved::Nothing,
    }
}

/// The grant of an object is ended.
pub(crate) fn end_moved(local: &Local, at: EndAt) -> Moved
    ensures { result ≡ end_moved local.now at }
{
    let object = local.ended_object();
    match at {
        EndAt::Own => given_up(object, Holder::Private),
        EndAt::Other => given_up(object, Holder::Hand(local.seat)),
        EndAt::Large => large_ended(object),
        EndAt::Lost { .. } => Moved::Nothing,
    }
}

/// An object in hand is given back to a slab that another keeps.
pub(crate) fn post_moved(local: &Local, at: PostAt) -> Moved
    ensures { result ≡ post_moved local.now at }
{
    let object = local.ended_object();
    match at {
        PostAt::Push(PushAt::Exchange { .. }) => Moved::One(Shift {
            unit: object.unit,
            bytes: small_bytes(object.kind),
            from: Holder::Hand(local.seat),
            to: Holder::Public,
        }),
        PostAt::Push(PushAt::Look | PushAt::Link { .. }) => Moved::Nothing,
    }
}

/// A small object is granted, which was there until now.
pub(crate) fn small_granted(local: &Local, unit: u64, from: Holder) -> Moved
    ensures { result ≡ small_granted local.now unit from local.now.call.served }
{
    match local.call.served {
        Served::Small { class } => Moved::One(Shift {
            unit,
            bytes: size_of(class),
            from,
            to: Holder::Object(next_grant(local)),
        }),
        Served::Large { .. } => Moved::Nothing,
    }
}

/// The large object of the block in hand is granted.
pub(crate) fn large_granted(local: &Local, unit: u64) -> Moved
    ensures { result ≡ large_granted local.now unit }
{
    Moved::Granted {
        block: local.call.block,
        unit,
        grant: next_grant(local),
    }
}
