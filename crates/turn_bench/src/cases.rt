//! The calls of each case.

use crate::bench::{Bench, By};
use std::alloc::{AllocError, Global};

/// Which calls are made.
#[derive(Clone, Copy)]
pub enum Case {
    /// A seat has 50 objects of 8 to 939 bytes granted, and frees them.
    Small,
    /// A seat fills slabs, and another one frees all their objects, so that each slab is mailed back.
    Stranger,
    /// A seat has large objects of four sizes granted, and frees them, so that blocks come from the cache.
    Large,
    /// Each of 64 seats has an object granted, and frees it.
    Seats,
    /// A seat asks for a large object, and soon for one too many: then each answer is null.
    Full,
}

impl Case {
    /// The case of this name.
    pub fn named(name: &str) -> Option<Case> {
        match name {
            "small" => Some(Case::Small),
            "stranger" => Some(Case::Stranger),
            "large" => Some(Case::Large),
            "seats" => Some(Case::Seats),
            "full" => Some(Case::Full),
            _ => None,
        }
    }

    /// Makes the case's calls once.
    fn round(self, alloc: Global, bench: &mut Bench) -> Result<(), AllocError> {
        match self {
            Case::Small => {
                for at in 0..50 {
                    bench.malloc(alloc, 0, 8 + 19 * at)?;
                }
                bench.free_all(alloc, By::Keeper)
            }
            Case::Stranger => {
                for _ in 0..8 {
                    bench.malloc(alloc, 0, 4000)?;
                }
                bench.free_all(alloc, By::Seat(1))
            }
            Case::Large => {
                for at in 1..5 {
                    bench.malloc(alloc, 0, 20_000 * at)?;
                }
                bench.free_all(alloc, By::Keeper)
            }
            Case::Seats => {
                for seat in 0..64 {
                    bench.malloc(alloc, seat, 100)?;
                }
                bench.free_all(alloc, By::Keeper)
            }
            Case::Full => bench.malloc(alloc, 0, 100_000),
        }
    }

    /// Makes the case's calls so many times over.
    pub fn rounds(self, alloc: Global, bench: &mut Bench, count: u32) -> Result<(), AllocError> {
        for _ in 0..count {
            self.round(alloc, bench)?;
        }
        Ok(())
    }
}
