//! How many bytes each kind of holder has.
ghost use Rattle.std.specs.Prelude.{◌↔◌, IsTrue, ◌≡◌, ◌≤◌, ◌-◌, ◌^◌};
ghost use Rattle.part_model.specs.Stretches.{holder_at, AreStretches, has_region, stretch_bytes};
ghost use Rattle.part_model.specs.Totals.{bytes_at, bytes_held, regions_held, totals_of};

use crate::holders::HolderKind;
use crate::moves::same_region;
use crate::stretches::Stretch;
use pool_types::Place;

/// Counts of a partition: its live regions, their bytes, and how many of these each kind of holder has.
#[derive(Clone, Copy, Debug, Default, PartialEq, Eq)]
pub struct Totals {
    pub regions: u64,
    pub bytes: u64,
    pub waste: u64,
    pub head: u64,
    pub rest: u64,
    pub private: u64,
    pub public: u64,
    pub object: u64,
    pub large_head: u64,
    pub slab_cache: u64,
    pub cached: u64,
    pub bin: u64,
    pub queue: u64,
    pub hand: u64,
}

/// Whether the bytes of all stretches are few enough to be counted.
pub(crate) fn are_countable(stretches: &[Stretch]) -> bool
    requires { AreStretches stretches.now }
    ensures { IsTrue result ↔ (bytes_held (holder_at stretches.now) ≤ 2 ^ 64 - 1) }
{
    let mut bytes: u64 = 0;
    for stretch in stretches {
        match bytes.checked_add(stretch.range.bytes) {
            Some(more) => bytes = more,
            None => return false,
        }
    }
    true
}

/// The bytes of all stretches.
fn bytes_held(stretches: &[Stretch]) -> u64
    requires stretches { AreStretches stretches.now }
    requires fits { stretch_bytes stretches.now ≤ 2 ^ 64 - 1 }
    ensures { result ≡ bytes_held (holder_at stretches.now) }
{
    let mut bytes = 0;
    for stretch in stretches {
        bytes += stretch.range.bytes;
    }
    bytes
}

/// The bytes of the stretches at a kind of holder.
fn bytes_at(stretches: &[Stretch], kind: HolderKind) -> u64
    requires stretches { AreStretches stretches.now }
    requires fits { stretch_bytes stretches.now ≤ 2 ^ 64 - 1 }
    ensures { result ≡ bytes_at kind (holder_at stretches.now) }
{
    let mut bytes = 0;
    for stretch in stretches {
        if stretch.holder.is(kind) {
            bytes += stretch.range.bytes;
        }
    }
    bytes
}

/// Whether one of the stretches is of the place's region.
fn has_region(stretches: &[Stretch], place: &Place) -> bool
    ensures { result ≡ has_region stretches.now place.now.pool place.now.region }
{
    for stretch in stretches {
        if same_region(place, &stretch.range.place) {
            return true;
        }
    }
    false
}

/// The regions of the stretches. Each is counted at its first stretch.
fn regions_held(stretches: &[Stretch]) -> u64
    requires { AreStretches stretches.now }
    ensures { result ≡ regions_held (holder_at stretches.now) }
{
    let mut regions = 0;
    for (index, stretch) in stretches.iter().enumerate() {
        if !has_region(&stretches[..index], &stretch.range.place) {
            regions += 1;
        }
    }
    regions
}

/// The totals of a partition.
pub(crate) fn totals_of(stretches: &[Stretch]) -> Totals
    requires stretches { AreStretches stretches.now }
    requires fits { stretch_bytes stretches.now ≤ 2 ^ 64 - 1 }
    ensures { result ≡ totals_of (holder_at stretches.now) }
{
    Totals {
        regions: regions_held(stretches),
        bytes: bytes_held(stretches),
        waste: bytes_at(stretches, HolderKind::Waste),
        head: bytes_at(stretches, HolderKind::Head),
        rest: bytes_at(stretches, HolderKind::Rest),
        private: bytes_at(stretches, HolderKind::Private),
        public: bytes_at(stretches, HolderKind::Public),
        object: bytes_at(stretches, HolderKind::Object),
        large_head: bytes_at(stretches, HolderKind::LargeHead),
        slab_cache: bytes_at(stretches, HolderKind::SlabCache),
        cached: bytes_at(stretches, HolderKind::Cached),
        bin: bytes_at(stretches, HolderKind::Bin),
        queue: bytes_at(stretches, HolderKind::Queue),
        hand: bytes_at(stretches, HolderKind::Hand),
    }
}
