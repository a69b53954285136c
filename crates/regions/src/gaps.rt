//! The free indices of a pool.
ghost use Rattle.std.specs.Prelude.{◌≡◌, ◌+◌, ◌%◌, ◌<◌, ◌≤◌, ℕ, true, false, length, IfSome, IfNone};
ghost use Rattle.pool_types.specs.Limits.{most_span};
ghost use Rattle.regions.specs.Gaps.{has_index, is_taken, IsGap, IsLongestGap, IsFit};

use pool_types::RegionRec;

/// Free indices in a row.
#[derive(Clone, Copy)]
pub struct Gap {
    pub start: u32,
    pub count: u32,
}

/// Whether the index is that of a granule of the region or of its wall.
fn has_index(one: &RegionRec, index: u32) -> bool
    ensures { result ≡ has_index one.now index }
{
    one.first <= index && index - one.first <= one.granules
}

/// Whether a region has the index.
fn is_taken(records: &[RegionRec], index: u32) -> bool
    ensures { result ≡ is_taken records.now index }
{
    records.iter().any(|one| has_index(one, index))
}

/// The first index from here on that is not free, or the span where there is none.
fn first_taken(records: &[RegionRec], from: u32, span: u32) -> u32
    requires { from ≤ span }
    ensures from { from ≤ result }
    ensures within { result ≤ span }
    ensures free { (index : ℕ) → from ≤ index → index < result → is_taken records.now index ≡ false }
    ensures taken { result < span → is_taken records.now result ≡ true }
{
    for index in from..span {
        if is_taken(records, index) {
            return index;
        }
    }
    span
}

/// The longest gap, the lowest of equals.
pub fn longest_gap(records: &[RegionRec], span: u32) -> Gap
    requires { span ≤ most_span }
    ensures { IsLongestGap span records.now result.start result.count }
{
    let mut best = Gap { start: 0, count: 0 };
    let mut at = 0;
    while at < span {
        let end = first_taken(records, at, span);
        if end - at > best.count {
            best = Gap {
                start: at,
                count: end - at,
            };
        }
        at = end + 1;
    }
    best
}

/// The lowest index from here on that is of the parity.
pub fn of_parity(from: u32, parity: u32) -> u32
    requires low { from ≤ most_span }
    requires parity { parity < 2 }
    ensures even_or_odd { result % 2 ≡ parity }
    ensures from { from ≤ result }
    ensures near { result ≤ from + 1 }
{
    if from % 2 == parity { from } else { from + 1 }
}

/// The lowest start of the parity from which so many indices are free.
pub fn lowest_fit(records: &[RegionRec], span: u32, parity: u32, count: u64) -> Option<u32>
    requires low { span ≤ most_span }
    requires parity { parity < 2 }
    requires count { 1 ≤ count }
    ensures fits { IfSome result (λ start. IsFit span records.now parity count start) }
    ensures lowest { IfSome result (λ start.
        (other : ℕ) → IsFit span records.now parity count other → start ≤ other) }
    ensures none { IfNone result ((other : ℕ) → IsFit span records.now parity count other → ⊥) }
{
    let mut at = 0;
    while at < span {
        let end = first_taken(records, at, span);
        let start = of_parity(at, parity);
        if start <= end && count <= u64::from(end - start) {
            return Some(start);
        }
        at = end + 1;
    }
    None
}
