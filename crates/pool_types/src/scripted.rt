//! A raw callback that answers by scripts, for replayed traces. This project's own.
ghost use Rattle.std.specs.Prelude.{◌≡◌, ◌≤◌, ◌<◌, ◌+◌, ◌-◌, ◌*◌, ◌^◌, true, false, List, ℕ, [], ◌++◌, drop, option_to_list, slice_get, IfSome, IfNone, Contains, length, find, slice_index_or};
ghost use Rattle.pool_types.specs.Causes.{HasCauseOfNone, HasCauseOfFalse};
ghost use Rattle.pool_types.specs.declared.values.Region.{Region};
ghost use Rattle.pool_types.specs.Regions.{overlaps, overlaps_any, IsFresh, Loses};
ghost use Rattle.pool_types.specs.Script.{Gets, Puts, IsAnswer, IsByRule, IsGiven};

use crate::limits::MOST_REGIONS;
use crate::raw::Raw;
use crate::values::Region;
use arrayvec::ArrayVec;
use std::marker::Model;

/// Bases that no script names are multiples of so many bytes.
const STEP: u64 = 1048576;

/// Answers each get and put by the next entry of its script. Where the script of gets is spent, it gives exactly the
/// bytes asked, at the least base from 1048576 on that is a multiple of 1048576 and overlaps no region that is out;
/// where the script of puts is spent, a put succeeds. At most 64 regions are out at a time.
#[derive(Drop)]
pub struct ScriptedRaw {
    gets: Vec<Option<Region>>,
    gets_taken: usize,
    puts: Vec<bool>,
    puts_taken: usize,
    out: ArrayVec<Region, MOST_REGIONS>,
    faults: u64,
}

impl Model for ScriptedRaw {
    ghost use Rattle.std.specs.Prelude.{drop};
    ghost use Rattle.pool_types.specs.Script.{Script};

    ghost Value = { Script };

    ghost view = { λ s. record { gets = drop s.gets_taken s.gets.items; puts = drop s.puts_taken s.puts.items; out = s.out.items; faults = s.faults } };
}

impl ScriptedRaw {
    ghost use Rattle.std.specs.Prelude.{◌≡◌, []};

    /// With these scripts, no region out and no fault. A None among the gets is a get that fails, and so is a region
    /// that has fewer bytes than asked, ends past the greatest u64 or overlaps one that is out; a false among the puts
    /// is a put that fails.
    pub fn of(gets: Vec<Option<Region>>, puts: Vec<bool>) -> Self
        ensures { result ≡ record { gets = gets.items; puts = puts.items; out = []; faults = 0 } }
    {
        ScriptedRaw {
            gets,
            gets_taken: 0,
            puts,
            puts_taken: 0,
            out: ArrayVec::new(),
            faults: 0,
        }
    }
}

/// The entries that are taken after one more, where one is left.
fn one_more<T>(script: &[T], taken: usize) -> usize
    ensures { drop result script.now ≡ drop 1 (drop taken script.now) }
{
    if taken < script.len() {
        taken + 1
    } else {
        taken
    }
}

/// Whether some address lies in both.
fn overlaps(one: &Region, other: &Region) -> bool
    ensures { result ≡ overlaps one.now other.now }
{
    u128::from(other.base) < u128::from(one.base) + u128::from(one.bytes)
        && u128::from(one.base) < u128::from(other.base) + u128::from(other.bytes)
}

/// The first of the regions that has an address in common with these bytes.
fn first_overlapping(out: &[Region], wanted: &Region) -> Option<Region>
    ensures { result ≡ find (λ one. overlaps one wanted.now) out.now }
{
    for one in out {
        if overlaps(one, wanted) {
            return Some(*one);
        }
    }
    None
}

/// The least multiple of `STEP` at which so many bytes overlap no region that is out, where they end there at or below
/// the greatest u64. A region that is overlapped is so at no multiple past its end, so at most 65 bases are tried.
fn least_free(out: &[Region], bytes: u64) -> Option<Region>
    requires { 1 ≤ bytes }
    ensures some { IfSome result (IsByRule out.now bytes) }
    ensures none { IfNone result ((region : Region) → IsByRule out.now bytes region → ⊥) }
{
    let mut base: u64 = STEP;
    while base <= u64::MAX - bytes {
        let wanted = Region { base, bytes };
        let Some(met) = first_overlapping(out, &wanted) else {
            return Some(wanted);
        };
        let Some(next) = step_from(met) else {
            return None;
        };
        base = next;
    }
    None
}

/// The least multiple of `STEP` that is no less than the region's end, where there is one.
fn step_from(met: Region) -> Option<u64>
    ensures some { IfSome result (λ base. (steps : ℕ) × (base ≡ 1048576 * steps) × (met.base + met.bytes ≤ base) × (base < met.base + met.bytes + 1048576)) }
    ensures none { IfNone result (2 ^ 64 - 1048576 < met.base + met.bytes) }
{
    let end = met.base.checked_add(met.bytes)?;
    if end > u64::MAX - (STEP - 1) {
        return None;
    }
    Some(end.div_ceil(STEP) * STEP)
}

/// What a get of so many bytes answers where this is the next entry of the script.
fn answer_of(entry: Option<Option<Region>>, out: &[Region], bytes: u64) -> Option<Region>
    requires { 1 ≤ bytes }
    ensures { IsAnswer entry out.now bytes result }
{
    if out.len() >= MOST_REGIONS {
        return None;
    }
    match entry {
        None => least_free(out, bytes),
        Some(None) => None,
        Some(Some(region)) => fresh_or_none(out, bytes, region),
    }
}

/// The region, where it has the room asked, ends where an address can, and overlaps none of those that are out.
fn fresh_or_none(out: &[Region], bytes: u64, region: Region) -> Option<Region>
    ensures some { IfSome result (λ given. (given ≡ region) × IsFresh out.now bytes region) }
    ensures none { IfNone result (IsFresh out.now bytes region → ⊥) }
{
    let end = u128::from(region.base) + u128::from(region.bytes);
    if region.bytes < bytes || end > u128::from(u64::MAX) {
        return None;
    }
    match first_overlapping(out, &region) {
        None => Some(region),
        Some(_) => None,
    }
}

impl Raw for ScriptedRaw {
    ghost out = { λ s. s.out };

    ghost faults = { λ s. s.faults };

    ghost got = { Gets };

    ghost passed = { Puts };

    fn get(&mut self, bytes: u64) -> Option<Region> {
        let entry = self.gets.get(self.gets_taken).copied();
        let answer = answer_of(entry, self.out.as_slice(), bytes);
        self.gets_taken = one_more(self.gets.as_slice(), self.gets_taken);
        match answer {
            Some(region) => self.out.push(region),
            None => self.faults = self.faults.saturating_add(1),
        }
        answer
    }

    fn put(&mut self, region: Region) -> bool {
        let answer = self.puts.get(self.puts_taken).copied().unwrap_or(true);
        self.puts_taken = one_more(self.puts.as_slice(), self.puts_taken);
        remove_region(&mut self.out, region);
        if !answer {
            self.faults = self.faults.saturating_add(1);
        }
        answer
    }
}

/// Takes the first place of the region out of the list.
fn remove_region(out: &mut ArrayVec<Region, MOST_REGIONS>, region: Region)
    requires { Contains out.old.items region }
    ensures { Loses out.old.items region out.new.items }
{
    let index = index_of(out.as_slice(), &region);
    out.remove(index);
}

/// The first place of the region in the list.
fn index_of(out: &[Region], region: &Region) -> usize
    requires { Contains out.now region.now }
    ensures below { result < length out.now }
    ensures there { slice_index_or out.now result region.now ≡ region.now }
{
    for (i, one) in out.iter().enumerate() {
        if one == region {
            return i;
        }
    }
    unreachable!()
}
