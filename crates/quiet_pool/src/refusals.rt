//! Why a pool is not made quiet.

use pool_api::{Heap, Pool};
use pool_types::Raw;

/// Why a pool is not made quiet.
#[derive(Clone, Copy, PartialEq, Eq, Debug)]
pub enum QuietCause {
    /// Fewer heaps were given than were made.
    MissingHeaps { given: u32, made: u32 },
    /// A seat is in a call; this is the lowest one.
    CallBegun { seat: u8 },
}

/// A pool that is not made quiet: all comes back as it was.
#[derive(Drop)]
pub struct QuietRefused<R: Raw> {
    pub cause: QuietCause,
    pub pool: Pool<R>,
    pub heaps: Vec<Heap<R>>,
}
