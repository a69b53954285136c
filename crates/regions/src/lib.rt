//! The office of a pool: it gets regions from the raw callback, gives each a number and indices in a row, and gives
//! regions back.
//!
//! A pool has a span of granule indices. A region with `w` whole granules takes `w + 1` of them in a row, of which the
//! last is its wall, so that no two regions' granules are neighbours. Even indices stand for granules at whose address
//! a slab can begin. The bytes of a region before its first whole granule and after its last are waste. Numbers,
//! indices, walls and the limits are this project's own; what is asked of the callback follows oneTBB's
//! `Backend::addNewRegion` and `MemPoolPolicy`.
//!
//! Modules: `office` (the office and its calls), `errors` (why no region is obtained), `asking` (the bytes asked),
//! `numbers` (the next number), `gaps` (the free indices) and `placing` (where a region goes).
#![tactic(auto)]

mod asking;
pub mod errors;
mod gaps;
mod numbers;
pub mod office;
mod placing;
#[cfg(test)]
mod tests;

pub use errors::ObtainError;
pub use office::Office;
