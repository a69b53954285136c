//! The pool that a pool line makes, by its options. The options are this project's own; what they set is oneTBB's
//! `MemPoolPolicy`, or this project's limits.
ghost use Rattle.std.specs.Prelude.{◌≡◌};
ghost use Rattle.pool_types.specs.Policies.{Checks};
ghost use Rattle.trace_calls.specs.Pools.{default_policy, option_policy, pool_policy};
ghost use Rattle.trace_calls.specs.Pools.{default_limits, option_limits, pool_limits, made_entry};

use pool_types::limits::{PLAIN_REGION_BYTES, PLAIN_SPAN};
use pool_types::{CreateError, Limits, Policy, check};
use report_text::ReportEntry;
use trace_reader::PoolOption;

/// The policy of a line without options: both callbacks, version 1, and nothing else.
fn default_policy() -> Policy
    ensures { result ≡ default_policy }
{
    Policy {
        gets: true,
        frees: true,
        version: 1,
        granularity: 0,
        fixed: false,
        keep: false,
        reserved: 0,
    }
}

/// The policy that an option makes of one.
fn option_policy(policy: Policy, option: PoolOption) -> Policy
    ensures { result ≡ option_policy policy option }
{
    match option {
        PoolOption::Fixed => Policy {
            fixed: true,
            ..policy
        },
        PoolOption::Keep => Policy {
            keep: true,
            ..policy
        },
        PoolOption::NoGet => Policy {
            gets: false,
            ..policy
        },
        PoolOption::NoFree => Policy {
            frees: false,
            ..policy
        },
        PoolOption::Gran(granularity) => Policy {
            granularity,
            ..policy
        },
        PoolOption::Version(version) => Policy { version, ..policy },
        PoolOption::Reserved(reserved) => Policy { reserved, ..policy },
        PoolOption::Region(_) | PoolOption::Span(_) => policy,
    }
}

/// The policy of the pool of a line with these options.
pub fn pool_policy(options: &[PoolOption]) -> Policy
    ensures { result ≡ pool_policy options.now }
{
    let mut policy = default_policy();
    for option in options {
        policy = option_policy(policy, *option);
    }
    policy
}

/// The limits that an option makes of some.
fn option_limits(limits: Limits, option: PoolOption) -> Limits
    ensures { result ≡ option_limits limits option }
{
    match option {
        PoolOption::Region(region) => Limits { region, ..limits },
        PoolOption::Span(span) => Limits { span, ..limits },
        PoolOption::Fixed
        | PoolOption::Keep
        | PoolOption::NoGet
        | PoolOption::NoFree
        | PoolOption::Gran(_)
        | PoolOption::Version(_)
        | PoolOption::Reserved(_) => limits,
    }
}

/// The limits of the pool of this number, of a line with these options, for so many seats. Without an option the span
/// is 1024 granules and the least region 1048576 bytes.
pub fn pool_limits(pool: u16, seats: u8, options: &[PoolOption]) -> Limits
    ensures { result ≡ pool_limits pool seats options.now }
{
    let mut limits = Limits {
        pool,
        seats,
        span: PLAIN_SPAN,
        region: PLAIN_REGION_BYTES,
    };
    for option in options {
        limits = option_limits(limits, *option);
    }
    limits
}

/// How the making of that pool is judged. It takes no memory, and is never `NoMemory`.
pub fn judge_pool(pool: u16, seats: u8, options: &[PoolOption]) -> Result<(), CreateError>
    ensures { Checks (pool_policy options.now) (pool_limits pool seats options.now) result }
{
    check(&pool_policy(options), &pool_limits(pool, seats, options))
}

/// What the pool's line reports, where its making was judged so. Want of memory is no entry: it ends a replay.
pub fn made_entry(line: u32, verdict: Result<(), CreateError>) -> Option<ReportEntry>
    ensures { result ≡ made_entry line verdict }
{
    match verdict {
        Ok(()) => Some(ReportEntry::Made { line }),
        Err(CreateError::InvalidPolicy) => Some(ReportEntry::InvalidPolicy { line }),
        Err(CreateError::UnsupportedPolicy) => Some(ReportEntry::UnsupportedPolicy { line }),
        Err(CreateError::BadLimits(limit)) => Some(ReportEntry::BadLimits { line, limit }),
        Err(CreateError::NoMemory) => None,
    }
}
