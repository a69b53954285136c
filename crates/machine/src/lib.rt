//! The partition machine: what a pool's bytes, slabs and regions may do, step by step, and which answers of calls are
//! legal. It knows nothing of how a pool is built. This project's own.
//!
//! The crate has definitions, in `specs/`, and laws (theorems), each of which is what a function of `laws` ensures.
//! There is no code to run.
//!
//! - `States` has the state: where each byte is, the live regions, the book of slabs and the seats' last numbers.
//! - `Ranges` and `Regions` say what granules, blocks, slabs, objects and regions are. What a pool asks its callback
//!   for, which number a region gets and where it lies is said in `regions`.
//! - `Journal` has the turns, and the state after one. What a turn found stands in it only where the state doesn't
//!   show it.
//! - `Lawful` has the lawful moves, one case for each kind.
//! - `Suits`, `Looks` and `Answers` say which answers are legal, over the states at a call's begin, at each of its
//!   turns and at its answer. `Cleaning` says what the clock of the cache of large blocks asks of a call.
//! - `Events` has the events of a pool, and how far a run has come; `Turns` says what is asked of a turn, and `Runs`
//!   which lists of events are runs. A whole call is its begin and its turns; with several seats the turns of calls
//!   that are open at once stand between one another.
//! - `Callback` says what a run tells of its raw callback, `Stored` what is kept of a run as its journal, `Leaks`
//!   which objects are held, and `Ledger` which a run grants and frees.
//! - `Laws` has the laws, and `Examples` short runs: two that are, and those of wrong allocators.
#![tactic(auto)]

pub mod laws;
