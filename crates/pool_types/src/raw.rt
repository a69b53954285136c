//! The raw callbacks, by which a pool gets regions and gives them back.
ghost use Rattle.std.specs.Prelude.{◌≡◌, ◌≤◌, List, ℕ, Bool, ◌++◌, option_to_list, IfSome, Contains};
ghost use Rattle.std.specs.declared.option.Option.{Option};
ghost use Rattle.pool_types.specs.declared.values.Region.{Region};
ghost use Rattle.pool_types.specs.Causes.{HasCauseOfNone, HasCauseOfFalse};
ghost use Rattle.pool_types.specs.Regions.{IsFresh, Loses};

use crate::values::Region;

/// Where regions come from: `pAlloc` and `pFree` of oneTBB's `MemPoolPolicy`, in
/// include/oneapi/tbb/scalable_allocator.h. The counts and the two relations are this project's own.
pub trait Raw: Drop {
    /// The regions that are out, in the order in which they came.
    ghost out: { Self → List Region };

    /// How often a call has failed; the count stays at the greatest u64.
    ghost faults: { Self → ℕ };

    /// What a get of so many bytes may answer, and the callback after it.
    ghost got: { Self → ℕ → Option Region → Self → Type 0 };

    /// What a put of the region may answer, and the callback after it.
    ghost passed: { Self → Region → Bool → Self → Type 0 };

    /// Gives a region of at least so many bytes that overlaps none of those out. None comes only where the count of
    /// faults rose, and then the regions out are as before.
    fn get(&mut self, bytes: u64) -> Option<Region>
        requires { 1 ≤ bytes }
        ensures given { IfSome result (λ region. IsFresh (out self.old) bytes region) }
        ensures out { out self.new ≡ out self.old ++ option_to_list result }
        ensures cause { HasCauseOfNone (faults self.old) (faults self.new) result }
        ensures meaning { got self.old bytes result self.new };

    /// Takes back a region that is out. Whatever it answers, the region is out no more; false comes only where the
    /// count of faults rose.
    fn put(&mut self, region: Region) -> bool
        requires { Contains (out self.old) region }
        ensures out { Loses (out self.old) region (out self.new) }
        ensures cause { HasCauseOfFalse (faults self.old) (faults self.new) result }
        ensures meaning { passed self.old region result self.new };
}
