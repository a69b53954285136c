//! The office and its calls.
ghost use Rattle.std.specs.Prelude.{◌≡◌, ◌<◌, ◌≤◌, ◌==◌, [], true, false, ℕ, IfOk, IfErr, length, slice_index_or};
ghost use Rattle.std.specs.List.{list_any};
ghost use Rattle.pool_types.specs.Policies.{IsAllowed};
ghost use Rattle.pool_types.specs.declared.policy.RegionRec.{RegionRec};

use crate::asking::{asked_bytes, asked_indices};
use crate::errors::ObtainError;
use crate::gaps::{Gap, longest_gap};
use crate::numbers::next_number;
use crate::placing::record_of;
use arrayvec::ArrayVec;
use pool_types::limits::{MOST_REGIONS, REGION_NUMBERS};
use pool_types::{Limits, Policy, Raw, RegionRec};
use std::marker::Model;

/// What is asked of the callback: so many bytes, for the region that gets this number, which the longest gap has
/// room for.
#[derive(Clone, Copy)]
struct Asking {
    number: u32,
    bytes: u64,
    longest: Gap,
}

/// The pool's interface to the system: keeps the records of the regions that the pool has got from its callback and not
/// given back, by number.
///
/// A number is never used twice, and numbers end below `REGION_NUMBERS`. At most `MOST_REGIONS` regions are out, and no
/// two of them have numbers that are equal modulo that. No call takes memory.
#[derive(Drop)]
pub struct Office<R: Raw> {
    policy: Policy,
    limits: Limits,
    raw: R,
    records: ArrayVec<RegionRec, MOST_REGIONS>,
    counter: u32,
    has_got: bool,
}

impl<R: Raw> Model for Office<R> {
    ghost use Rattle.regions.specs.Offices.{Desk, IsSound, desk_of};

    ghost Value = { Desk R };

    ghost view = { λ o. desk_of o.policy o.limits o.records.items o.counter o.has_got o.raw };

    ghost invariant = { λ o. IsSound R.out (desk_of o.policy o.limits o.records.items o.counter o.has_got o.raw) };
}

impl<R: Raw> Office<R> {
    ghost use Rattle.regions.specs.Offices.{IsSound, desk_of};
    ghost use Rattle.pool_types.specs.Geometry.{granule_bytes};
    ghost use Rattle.regions.specs.Asking.{asked_indices};
    ghost use Rattle.regions.specs.Gaps.{IsLongestGap};
    ghost use Rattle.regions.specs.Obtaining.{Obtains, Gives, HasNumber, IsRefused, bytes_for, starts_at};

    /// With no region, over a callback that has none out.
    pub fn over(policy: Policy, limits: Limits, raw: R) -> Self
        requires allowed { IsAllowed policy limits }
        requires none_out { R.out raw ≡ [] }
        ensures made { result ≡ desk_of policy limits [] 0 false raw }
        ensures sound { IsSound R.out result }
    {
        Office {
            policy,
            limits,
            raw,
            records: ArrayVec::new(),
            counter: 0,
            has_got: false,
        }
    }

    /// The records of the regions out, by number.
    pub fn regions(&self) -> &[RegionRec]
        ensures records { result.now ≡ self.now.records }
        ensures sound { IsSound R.out self.now }
    {
        self.records.as_slice()
    }

    /// Gives the callback back.
    pub fn end(self) -> R
        ensures raw { result ≡ self.raw }
        ensures sound { IsSound R.out self }
    {
        let Office { raw, .. } = self;
        raw
    }

    /// Gets one more region for so many granules. A fixed office asks for the least region whatever is needed, and
    /// never again once a region came. The answer is the first that holds of: `HasRegion`, `RegionsFull`, `SpanFull`,
    /// and `RawFailed` where the callback gives nothing; then nothing has changed but the callback. Else the region is
    /// placed at the lowest start of the right parity where its granules and its wall are free, or, where there is
    /// none, in the longest gap, the lowest of equals, with as many granules as fit.
    pub fn obtain(&mut self, granules: u32) -> Result<RegionRec, ObtainError>
        requires some { 1 ≤ granules }
        requires most { granules < self.old.limits.span }
        ensures obtains { Obtains R.out R.faults R.got self.old granules result self.new }
        ensures sound { IsSound R.out self.new }
    {
        let asking = self.asking(granules)?;
        let Some(region) = self.raw.get(asking.bytes) else {
            return Err(ObtainError::RawFailed);
        };
        let records = self.records.as_slice();
        let record = record_of(
            records,
            self.limits.span,
            asking.longest,
            asking.number,
            region,
        );
        self.records.push(record);
        self.counter = asking.number + 1;
        self.has_got = true;
        Ok(record)
    }

    /// Passes the region that starts at this index to the callback, and answers what it answers. Whatever that is, the
    /// region's record is gone.
    pub fn give(&mut self, first: u32) -> bool
        requires { starts_at self.old first ≡ true }
        ensures gives { Gives R.out R.faults R.passed self.old first result self.new }
        ensures sound { IsSound R.out self.new }
    {
        let position = position_of_first(self.records.as_slice(), first);
        let record = self.records.remove(position);
        self.raw.put(record.region)
    }

    /// The number that the next region gets.
    fn next_number(&self) -> Result<u32, ObtainError>
        ensures number { IfOk result (HasNumber self.now) }
        ensures refused { IfErr result (λ error. (granules : ℕ) → IsRefused self.now granules error) }
    {
        if self.policy.fixed && self.has_got {
            return Err(ObtainError::HasRegion);
        }
        let records = self.records.as_slice();
        let next = next_number(records, self.counter);
        if records.len() >= MOST_REGIONS || u64::from(next) >= REGION_NUMBERS {
            let out = records.len() as u32;
            return Err(ObtainError::RegionsFull { out, next });
        }
        Ok(next)
    }

    /// What is asked of the callback, and where there is room for what it gives.
    fn asking(&self, granules: u32) -> Result<Asking, ObtainError>
        requires { granules < self.now.limits.span }
        ensures number { IfOk result (λ asking. HasNumber self.now asking.number) }
        ensures bytes { IfOk result (λ asking. asking.bytes ≡ bytes_for self.now granules) }
        ensures least { IfOk result (λ asking. granule_bytes ≤ asking.bytes) }
        ensures longest { IfOk result (λ asking.
            IsLongestGap self.now.limits.span self.now.records asking.longest.start asking.longest.count) }
        ensures enough { IfOk result (λ asking. asked_indices asking.bytes ≤ asking.longest.count) }
        ensures refused { IfErr result (IsRefused self.now granules) }
    {
        let number = self.next_number()?;
        let bytes = asked_bytes(&self.policy, &self.limits, granules);
        let asked = asked_indices(bytes);
        let longest = longest_gap(self.records.as_slice(), self.limits.span);
        if longest.count < asked {
            return Err(ObtainError::SpanFull {
                asked,
                greatest: longest.count,
            });
        }
        Ok(Asking {
            number,
            bytes,
            longest,
        })
    }
}

/// The position of the record that starts at the index.
fn position_of_first(records: &[RegionRec], first: u32) -> usize
    requires { list_any (λ one. one.first == first) records.now ≡ true }
    ensures below { result < length records.now }
    ensures there { (other : RegionRec) → (slice_index_or records.now result other).first ≡ first }
{
    for (position, one) in records.iter().enumerate() {
        if one.first == first {
            return position;
        }
    }
    unreachable!()
}
