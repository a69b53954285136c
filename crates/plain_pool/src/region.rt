//! The one region of a fixed pool.
ghost use Rattle.std.specs.Prelude.{◌≡◌, unwrap_or, Some, None};
ghost use Rattle.plain_lists.specs.Lists.{first_region};

use pool_types::{Raw, Region, ScriptedRaw};
use std::alloc::Global;
use std::marker::Model;

/// The bytes that the pool asks for.
const REGION_BYTES: u64 = 1048576;

/// The callback, without a script, and the region that it gave. Contracts see the region, once it was asked for.
#[derive(Drop)]
pub struct OneRegion {
    raw: ScriptedRaw,
    given: Option<Region>,
}

impl Model for OneRegion {
    ghost use Rattle.std.specs.Prelude.{◌≡◌, [], Option, IfNone};
    ghost use Rattle.pool_types.specs.declared.values.Region.{Region};

    ghost Value = { Option Region };

    ghost view = { λ one. one.given };

    ghost invariant = { λ one. IfNone one.given (one.raw ≡ record { gets = []; puts = []; out = []; faults = 0 }) };
}

impl OneRegion {
    /// No region yet.
    pub fn unasked(alloc: Global) -> Self
        ensures { result ≡ None }
    {
        OneRegion {
            raw: ScriptedRaw::of(Vec::new(alloc), Vec::new(alloc)),
            given: None,
        }
    }

    /// The region, once it was asked for.
    pub fn given(&self) -> Option<Region>
        ensures { result ≡ self.now }
    {
        self.given
    }

    /// Asks for the region, where it was not asked for yet. The callback has no script, so it gives one.
    pub fn obtain(&mut self)
        ensures { self.new ≡ Some (unwrap_or self.old first_region) }
    {
        if self.given.is_none() {
            self.given = self.raw.get(REGION_BYTES);
        }
    }
}
