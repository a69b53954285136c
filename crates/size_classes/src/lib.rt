//! The classes of sizes of small objects, the class of a size, what a request for memory is served as, and where a
//! slab's objects lie.
//!
//! An object that is not large lies in a slab whose objects all have one size, the slab's class. The classes and how the
//! class of a size is found from its bits are modelled on oneTBB's `src/tbbmalloc/frontend.cpp`
//! (`getIndexOrObjectSize`). The list of the sizes is this project's own.
#![tactic(auto)]

ghost use Rattle.std.specs.Prelude.{◌≡◌, ℕ, ◌<◌, ◌≤◌};
ghost use Rattle.pool_types.specs.Geometry.{class_count, largest_small};
ghost use Rattle.size_classes.specs.Classes.{class_of, IsFirstClass, class_size, class_objects, quarters_end};

use pool_types::geometry::{CLASSES, LARGEST_SMALL, OBJECTS_BYTES};
use std::marker::Model;

pub mod laws;
pub mod layout;
pub mod numbered;
pub mod request;

pub use layout::object_offset;

/// The sizes of the classes in bytes, in rising order.
const SIZES: [u16; CLASSES] = [
    8, 16, 32, 48, 64, 80, 96, 112, 128, 160, 192, 224, 256, 320, 384, 448, 512, 640, 768, 896,
    1024, 1792, 2688, 4032, 5376, 8128,
];

/// Up to this size each doubling has four classes, from 64 on.
const QUARTERS_END: u64 = 1024;

/// A size class. Contracts see it as its position among the 26 classes.
#[derive(Clone, Copy, Debug, PartialEq, Eq)]
pub struct Class {
    position: u8,
}

impl Model for Class {
    ghost use Rattle.std.specs.Prelude.{ℕ, ◌<◌};
    ghost use Rattle.pool_types.specs.Geometry.{class_count};

    ghost Value = { ℕ };

    ghost view = { λ class. class.position };

    ghost invariant = { λ class. class.position < class_count };

    ghost inverse = { λ position. record { position = position } };
}

/// What a request for memory is served as.
#[derive(Clone, Copy, Debug, PartialEq, Eq)]
pub enum Served {
    /// An object of this class.
    Small(Class),

    /// A block of so many granules, in which the object starts at a multiple of the
    /// alignment, in bytes.
    Large { granules: u64, alignment: u64 },

    /// Nothing: an aligned request for no bytes, or with an alignment that is no power of two.
    Bad,
}

impl Class {
    /// The size of an object of this class, in bytes.
    pub fn size(self) -> u64
        ensures exact { result ≡ class_size self }
        ensures least { 8 ≤ result }
        ensures most { result ≤ largest_small }
    {
        u64::from(SIZES[usize::from(self.position)])
    }

    /// How many objects a slab of this class has.
    pub fn objects(self) -> u32
        ensures exact { result ≡ class_objects self }
        ensures least { 2 ≤ result }
        ensures most { result ≤ 2032 }
    {
        (OBJECTS_BYTES / self.size()) as u32
    }

    /// The position among the classes, from 0 for the smallest.
    pub fn index(self) -> u8
        ensures exact { result ≡ self }
        ensures below { result < class_count }
    {
        self.position
    }
}

/// The class of a size in bytes: the first class that is not smaller. A size from 8129 on has none.
#[tactic(auto, using(crate::proofs::Positions::class_found))]
pub fn class_of(size: u64) -> Option<Class>
    ensures { result ≡ class_of size }
{
    if size <= 64 {
        Some(Class {
            position: sixteens_position(size),
        })
    } else if size <= QUARTERS_END {
        Some(Class {
            position: quarters_position(size),
        })
    } else if size <= LARGEST_SMALL {
        Some(Class {
            position: fitting_position(size),
        })
    } else {
        None
    }
}

/// The position for a size up to 64: class 8, and then the multiples of 16.
#[tactic(auto, using(crate::proofs::Sizes::low_sizes))]
fn sixteens_position(size: u64) -> u8
    requires { size ≤ 64 }
    ensures { IsFirstClass size result }
{
    if size <= 8 {
        0
    } else {
        size.div_ceil(16) as u8
    }
}

/// The position for a size from 65 to 1024, where each doubling has four classes. The highest set
/// bit of `size - 1` tells the doubling, and the two bits below it tell the class within.
fn quarters_position(size: u64) -> u8
    requires above { 64 < size }
    requires most { size ≤ quarters_end }
    ensures { IsFirstClass size result }
{
    let order = (size - 1).ilog2();
    let quarters = (size - 1) >> (order - 2);
    (4 * u64::from(order) + quarters - 23) as u8
}

/// The position for a size from 1025 to 8128. These classes are the largest multiples of 64 of which a
/// slab has room for 9, 6, 4, 3 and 2.
#[tactic(auto, using(crate::proofs::Positions::first_at), unfolding(crate::specs::Classes::class_size))]
fn fitting_position(size: u64) -> u8
    requires above { quarters_end < size }
    requires most { size ≤ largest_small }
    ensures { IsFirstClass size result }
{
    if size <= 1792 {
        21
    } else if size <= 2688 {
        22
    } else if size <= 4032 {
        23
    } else if size <= 5376 {
        24
    } else {
        25
    }
}

#[cfg(test)]
mod tests {
    use super::*;

    /// Sizes on both sides of each class, with the class's size and how many objects a slab has.
    #[test]
    fn finds_the_class_of_a_size(rt: HostRuntime) {
        let table: [(u64, u64, u32); 12] = [
            (0, 8, 2032),
            (8, 8, 2032),
            (9, 16, 1016),
            (64, 64, 254),
            (65, 80, 203),
            (128, 128, 127),
            (129, 160, 101),
            (1024, 1024, 15),
            (1025, 1792, 9),
            (2689, 4032, 4),
            (5376, 5376, 3),
            (8128, 8128, 2),
        ];
        for (size, bytes, objects) in table {
            let class = class_of(size).expect(&rt, "the size has a class");
            assert_eq!(rt; class.size(), bytes, "at {size}");
            assert_eq!(rt; class.objects(), objects, "at {size}");
        }
    }

    #[test]
    fn finds_no_class_past_the_largest(rt: HostRuntime) {
        for size in [8129, 1 << 60, u64::MAX] {
            assert!(rt; class_of(size).is_none(), "at {size}");
        }
    }

    #[test]
    fn counts_positions_from_zero(rt: HostRuntime) {
        for (size, index) in [(1, 0), (128, 8), (1024, 20), (8128, 25)] {
            let class = class_of(size).expect(&rt, "the size has a class");
            assert_eq!(rt; class.index(), index, "at {size}");
        }
    }
}
