//! A fixed pool of one region, for one thread, as flat arrays: the calls of `plain_lists` in constant time, but for the walk
//! of a malloc over the slabs of its class and the scan over bins. No call takes memory.
//!
//! - `pool` has the pool, and `arrays` what it is made of: its calls, one after another.
//! - `slabs` has the slabs by where they lie, the list of each class, and the marks of the region's units.
//! - `marks` says what a mark is, `bins` has the free blocks, and `region` the one region.
#![tactic(auto)]

mod arrays;
mod bins;
mod marks;
mod pool;
mod region;
mod slabs;

pub use arrays::PoolArrays;
pub use pool::Pool;

#[cfg(test)]
mod tests;
