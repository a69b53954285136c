//! Pools and their heaps, as a program calls them: whole calls over the turns of seats.
//!
//! A heap's turn takes no memory, no lock and no handle of the runtime; a whole call makes turns until it is answered,
//! and yields where a turn waits. This project's own; the calls are those of oneTBB's user pools (`pool_malloc` and its
//! kin, include/oneapi/tbb/scalable_allocator.h).
#![tactic(auto)]

mod calls;
mod named;
mod pools;
mod tables;

pub use calls::call;
pub use named::{aligned, aligned_realloc, exit, free, identify, malloc, msize, realloc};
pub use pools::{Heap, Pool, create};
pub use tables::{Rest, Table, call_at, part, unite};
