//! A fixed pool as plain lists, and what a whole call does to them: the course of the calls, said without words and
//! steps.
//!
//! The crate has definitions, in `specs/`, and laws, each of which is what a function of `laws` ensures. There is no
//! code to run.
//!
//! - `Lists` has the lists: slabs with their objects, the slab cache, blocks in bins.
//! - `Backend` says which block a slab is cut out of, and how a block is joined with its free neighbours.
//! - `Whole` has the calls, and `Held` what the lists hold.
//! - `Good` says what holds of the lists between calls, and `Reached` what holds after any calls that are served.
//! - `Counts` says where objects lie while nothing is freed, by counts of earlier ones.
//!
//! The course is that of oneTBB's `src/tbbmalloc/frontend.cpp` and `backend.cpp`; the rule of the slab cache and the
//! lists themselves are this project's own.
#![tactic(auto)]

pub mod laws;
