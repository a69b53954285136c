//! Pools and heaps by their names here, and how they are made.
ghost use Rattle.std.specs.Prelude.{◌≡◌, [], length, IfOk, IfErr};
ghost use Rattle.pool_types.specs.Policies.{IsAllowed};
ghost use Rattle.step_depot.specs.Steps.{IsUnmade};
ghost use Rattle.atomic_driver.specs.Seating.{IsPool};
ghost use Rattle.pool_api.specs.Heaps.{AreFresh};

use atomic_driver::{DriverSeat, Shared};
use pool_types::{CreateError, Limits, Policy, Raw};
use std::alloc::Global;

/// A pool that threads share.
pub type Pool<R> = Shared<R>;

/// One thread's part of a pool.
pub type Heap<R> = DriverSeat<R>;

/// A pool and its heaps, as many as its seats, each at its number. No region is obtained yet. The refusals are those of
/// `check`, in its order, and then a want of memory.
pub fn create<R: Raw>(
    alloc: Global,
    policy: Policy,
    limits: Limits,
    raw: R,
) -> Result<(Pool<R>, Vec<Heap<R>>), CreateError>
    requires none_out { R.out raw ≡ [] }
    ensures plan { IfOk result (λ made. (made.0.plan.policy ≡ policy) × (made.0.plan.limits ≡ limits)) }
    ensures pool { IfOk result (λ made. IsPool R.out R.faults R.got R.passed made.0) }
    ensures count { IfOk result (λ made. length made.1.items ≡ made.0.plan.limits.seats) }
    ensures heaps { IfOk result (λ made. AreFresh R.out R.faults R.got R.passed made.0 made.1.items) }
    ensures allowed { IfOk result (λ made. IsAllowed policy limits) }
    ensures refused { IfErr result (IsUnmade policy limits) }
{
    Shared::make(alloc, policy, limits, raw)
}
