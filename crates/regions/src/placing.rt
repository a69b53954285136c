//! Where a region that came is placed.
ghost use Rattle.std.specs.Prelude.{◌≡◌, ◌+◌, ◌-◌, ◌^◌, ◌<◌, ◌≤◌};
ghost use Rattle.pool_types.specs.Geometry.{granule_bytes};
ghost use Rattle.pool_types.specs.Limits.{most_span};
ghost use Rattle.regions.specs.Gaps.{IsLongestGap};
ghost use Rattle.regions.specs.Placing.{IsPlaced, IsRecord};

use crate::gaps::{Gap, lowest_fit, of_parity};
use pool_types::geometry::{GRANULE_BYTES, SLAB_GRANULES};
use pool_types::{Region, RegionRec};

/// The index of a region's first granule, and how many granules it has.
#[derive(Clone, Copy)]
struct Placing {
    first: u32,
    granules: u32,
}

/// Where so many granules and a wall go: the lowest start of the parity where they fit, or else the longest gap, with
/// as many granules as fit there.
fn placing_of(records: &[RegionRec], span: u32, longest: Gap, parity: u32, whole: u64) -> Placing
    requires low { span ≤ most_span }
    requires parity { parity < 2 }
    requires whole { whole < 2 ^ 63 }
    requires longest { IsLongestGap span records.now longest.start longest.count }
    requires enough { 2 ≤ longest.count }
    ensures { IsPlaced span records.now parity whole result.first result.granules }
{
    match lowest_fit(records, span, parity, whole + 1) {
        Some(first) => Placing {
            first,
            granules: whole as u32,
        },
        None => {
            let first = of_parity(longest.start, parity);
            Placing {
                first,
                granules: longest.start + longest.count - first - 1,
            }
        }
    }
}

/// The record of a region that came.
pub fn record_of(
    records: &[RegionRec],
    span: u32,
    longest: Gap,
    number: u32,
    region: Region,
) -> RegionRec
    requires low { span ≤ most_span }
    requires longest { IsLongestGap span records.now longest.start longest.count }
    requires enough { 2 ≤ longest.count }
    requires ends { region.base + region.bytes ≤ 2 ^ 64 - 1 }
    requires bytes { granule_bytes ≤ region.bytes }
    ensures number { result.number ≡ number }
    ensures region { result.region ≡ region }
    ensures placed { IsRecord span records.now result }
{
    let waste = (GRANULE_BYTES - region.base % GRANULE_BYTES) % GRANULE_BYTES;
    let parity = ((region.base + waste) / GRANULE_BYTES % SLAB_GRANULES) as u32;
    let whole = (region.bytes - waste) / GRANULE_BYTES;
    let placing = placing_of(records, span, longest, parity, whole);
    RegionRec {
        number,
        first: placing.first,
        granules: placing.granules,
        waste: waste as u32,
        region,
    }
}
