//! What a request for memory is served as.
//!
//! The choice is that of oneTBB's `src/tbbmalloc/frontend.cpp` (`internalPoolMalloc`,
//! `allocateAligned` and the tests of `pool_aligned_malloc`). This project's own are the granules,
//! and that a request which no class serves at its alignment takes a block: oneTBB may also take a
//! larger small object and start inside it.

ghost use Rattle.std.specs.Prelude.{◌≡◌, ◌≢◌, ℕ, ◌+◌, ◌-◌, ◌*◌, ◌%◌, ◌<◌, ◌≤◌, ◌↔◌, ◌⊎◌, IsTrue};
ghost use Rattle.std.specs.Int.{IsPowerOfTwo};
ghost use Rattle.pool_types.specs.Policies.{align_up};
ghost use Rattle.size_classes.specs.Classes.{class_size, quarters_end};
ghost use Rattle.size_classes.specs.Served.{aligned_class, served_plain, served, small_or, large_at, IfSmall};

use crate::{Class, QUARTERS_END, Served, class_of};
use pool_types::geometry::{GRANULE_BYTES, LINE_BYTES};

/// What a request for `size` bytes with no alignment is served as: an object of the size's class, and
/// from 8129 bytes on a block whose object has a head of 64 bytes or more before it. A request for no
/// bytes takes the smallest class. None is `Bad`.
pub fn served_plain(size: u64) -> Served
    ensures exact { result ≡ served_plain size }
    ensures never_bad { result ≢ Served.Bad }
    ensures fits { IfSmall result (λ class. size ≤ class_size class) }

    // Less than a fifth of the object is lost.
    ensures tight { 64 < size → size ≤ quarters_end → IfSmall result (λ class. 4 * (class_size class - size) < size) }
{
    small_or_large(class_of(size), size, LINE_BYTES)
}

/// What a request for `size` bytes at a multiple of `alignment` is served as. It is `Bad` exactly where
/// `size` is 0, whatever the alignment, or `alignment` is no power of two.
///
/// Where both are at most 1024, the size rounded up to the alignment has a class that is a multiple of
/// the alignment. Up to alignment 64 each class for more than 1024 bytes is such a multiple. Any other
/// request takes a block.
pub fn served(size: u64, alignment: u64) -> Served
    ensures exact { result ≡ served size alignment }
    ensures bad { (result ≡ Served.Bad) ↔ ((size ≡ 0) ⊎ ¬ IsPowerOfTwo alignment) }
    ensures fits { IfSmall result (λ class. size ≤ class_size class) }
    ensures multiple { IfSmall result (λ class. class_size class % alignment ≡ 0) }
{
    if !is_well_formed(size, alignment) {
        return Served::Bad;
    }
    small_or_large(
        aligned_class(size, alignment),
        size,
        alignment.max(LINE_BYTES),
    )
}

/// Whether a request asks for bytes, at an alignment that is a power of two.
fn is_well_formed(size: u64, alignment: u64) -> bool
    ensures { IsTrue result ↔ ((0 < size) × IsPowerOfTwo alignment) }
{
    size > 0 && alignment.is_power_of_two()
}

/// The class for a size and an alignment that is a power of two.
#[tactic(auto, using(crate::proofs::Serving::aligned_rows))]
fn aligned_class(size: u64, alignment: u64) -> Option<Class>
    requires { 0 < alignment }
    ensures { result ≡ aligned_class size alignment }
{
    if size <= QUARTERS_END && alignment <= QUARTERS_END {
        class_of(align_up(size, alignment))
    } else if alignment <= LINE_BYTES {
        class_of(size)
    } else {
        None
    }
}

/// The least multiple of the alignment that is not below the size.
fn align_up(size: u64, alignment: u64) -> u64
    requires size { size ≤ quarters_end }
    requires alignment { alignment ≤ quarters_end }
    requires positive { 0 < alignment }
    ensures { result ≡ align_up size alignment }
{
    size.next_multiple_of(alignment)
}

/// An object of the class, or where there is none a block.
fn small_or_large(class: Option<Class>, size: u64, alignment: u64) -> Served
    ensures { result ≡ small_or class (large_at size alignment) }
{
    match class {
        Some(class) => Served::Small(class),
        None => large(size, alignment),
    }
}

/// A block for an object of `size` bytes at a multiple of `alignment`. The bytes are added in 128
/// bits, since they may be `2^64` and more.
fn large(size: u64, alignment: u64) -> Served
    ensures { result ≡ large_at size alignment }
{
    let bytes = u128::from(size) + u128::from(alignment);
    Served::Large {
        granules: bytes.div_ceil(u128::from(GRANULE_BYTES)) as u64,
        alignment,
    }
}

#[cfg(test)]
mod tests;
