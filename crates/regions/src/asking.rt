//! What an office asks its callback for.
ghost use Rattle.std.specs.Prelude.{◌≡◌, ◌*◌, ◌<◌, ◌≤◌};
ghost use Rattle.pool_types.specs.Geometry.{granule_bytes};
ghost use Rattle.pool_types.specs.Limits.{most_region_bytes};
ghost use Rattle.pool_types.specs.Policies.{IsAllowed};
ghost use Rattle.regions.specs.Asking.{asked_bytes, asked_indices};

use pool_types::geometry::GRANULE_BYTES;
use pool_types::{Limits, Policy};

/// The bytes that are asked where so many granules are needed.
pub fn asked_bytes(policy: &Policy, limits: &Limits, granules: u32) -> u64
    requires allowed { IsAllowed policy.now limits.now }
    requires granules { granules < limits.now.span }
    ensures value { result ≡ asked_bytes policy.now limits.now granules }
    ensures least { granule_bytes ≤ result }
    ensures most { result ≤ 4 * most_region_bytes }
{
    let wanted = if policy.fixed {
        limits.region
    } else {
        limits.region.max((u64::from(granules) + 2) * GRANULE_BYTES)
    };
    let granularity = if policy.granularity == 0 {
        GRANULE_BYTES
    } else {
        policy.granularity
    };
    (wanted + (granularity - 1)) / granularity * granularity
}

/// The indices that have to be free before so many bytes are asked: for the granules that they may touch, for the
/// wall, and for a start of the other parity.
pub fn asked_indices(bytes: u64) -> u32
    requires { bytes ≤ 4 * most_region_bytes }
    ensures { result ≡ asked_indices bytes }
{
    ((bytes + (GRANULE_BYTES - 1)) / GRANULE_BYTES + 2) as u32
}
