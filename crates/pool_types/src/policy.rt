//! What a pool is made with, why its making is refused, and the record of a region that it got.
ghost use Rattle.std.specs.Prelude.{◌≡◌, ◌≤◌, true, OnOk, IfErr};
ghost use Rattle.pool_types.specs.Limits.{most_region_bytes};
ghost use Rattle.pool_types.specs.Policies.{Checks, AreIn, AreAllIn, is_out, least_span};

use crate::geometry::GRANULE_BYTES;
use crate::limits::{MOST_REGION_BYTES, MOST_SEATS, MOST_SPAN};
use crate::values::Region;
use thiserror::Error;

/// How a pool gets and gives back its regions. oneTBB's `MemPoolPolicy`, in include/oneapi/tbb/scalable_allocator.h:
/// `gets` and `frees` say whether it has `pAlloc` and `pFree`.
#[derive(Clone, Copy, Debug, PartialEq, Eq)]
pub struct Policy {
    pub gets: bool,
    pub frees: bool,
    pub version: u32,
    /// Regions are asked for in multiples of so many bytes; 0 means 8192.
    pub granularity: u64,
    /// The pool gets one region and no more.
    pub fixed: bool,
    /// The pool gives regions back only when it is destroyed.
    pub keep: bool,
    pub reserved: u32,
}

/// The limits of a pool. This project's own.
#[derive(Clone, Copy, Debug, PartialEq, Eq)]
pub struct Limits {
    /// The pool's number, which its places bear.
    pub pool: u16,
    /// How many seats (thread slots), each for one thread at a time: 1 to 64.
    pub seats: u8,
    /// How many granule indices: at most 1024.
    pub span: u32,
    /// The least bytes of a region that the pool asks for: 8192 to 8388608.
    pub region: u64,
}

/// The limit that is out of its range.
#[derive(Clone, Copy, Debug, PartialEq, Eq)]
pub enum Which {
    Seats,
    Region,
    Granularity,
    Span,
}

/// Why a pool is not made. The first two are `INVALID_POLICY` and `UNSUPPORTED_POLICY` of oneTBB's
/// `MemPoolError`; `BadLimits` is this project's own.
#[derive(Clone, Copy, Debug, PartialEq, Eq, Error)]
pub enum CreateError {
    #[error("the policy lacks a callback or a version")]
    InvalidPolicy,
    #[error("the policy is of a later version")]
    UnsupportedPolicy,
    #[error("a limit is out of its range")]
    BadLimits(Which),
    #[error("out of memory")]
    NoMemory,
}

/// A region that a pool got: its number, the index of its first granule, how many whole granules it has, and how many
/// bytes lie before the first of them. This project's own.
#[derive(Clone, Copy, Debug, Default, PartialEq, Eq)]
pub struct RegionRec {
    pub number: u32,
    pub first: u32,
    pub granules: u32,
    pub waste: u32,
    pub region: Region,
}

/// The checks of a pool's making, in order: the policy is valid, its version is 1 and nothing reserved is set, the
/// seats, the least region, the granularity and the span are in their ranges. The first that fails is the answer; it
/// is never `NoMemory`, and no memory is taken. The first two are those of oneTBB's `pool_create_v1`, in
/// src/tbbmalloc/frontend.cpp; the limits are this project's own.
pub fn check(policy: &Policy, limits: &Limits) -> Result<(), CreateError>
    ensures { Checks policy.now limits.now result }
{
    if !policy.gets || policy.version == 0 || (!policy.frees && !policy.fixed) {
        return Err(CreateError::InvalidPolicy);
    }
    if policy.version > 1 || policy.reserved != 0 {
        return Err(CreateError::UnsupportedPolicy);
    }
    check_limits(policy, limits).map_err(CreateError::BadLimits)
}

/// The first limit that is out of its range.
fn check_limits(policy: &Policy, limits: &Limits) -> Result<(), Which>
    ensures ok { OnOk result (AreAllIn policy.now limits.now) }
    ensures err { IfErr result (λ which. AreIn policy.now limits.now which × (is_out policy.now limits.now which ≡ true)) }
{
    if limits.seats == 0 || limits.seats > MOST_SEATS {
        return Err(Which::Seats);
    }
    if limits.region < GRANULE_BYTES || limits.region > MOST_REGION_BYTES {
        return Err(Which::Region);
    }
    if policy.granularity > MOST_REGION_BYTES {
        return Err(Which::Granularity);
    }
    if limits.span > MOST_SPAN || u64::from(limits.span) < least_span_of(policy, limits) {
        return Err(Which::Span);
    }
    Ok(())
}

/// The least span: the granules that the bytes of a region may touch, and one index for the wall.
fn least_span_of(policy: &Policy, limits: &Limits) -> u64
    requires region { limits.now.region ≤ most_region_bytes }
    requires granularity { policy.now.granularity ≤ most_region_bytes }
    ensures { result ≡ least_span policy.now limits.now }
{
    let granularity = if policy.granularity == 0 {
        GRANULE_BYTES
    } else {
        policy.granularity
    };
    let bytes = (limits.region + (granularity - 1)) / granularity * granularity;
    (bytes + (GRANULE_BYTES - 1)) / GRANULE_BYTES + 2
}
