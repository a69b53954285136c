//! What moves in a pool's words: by units and granules, and as parts at places.
//!
//! A step says by `Moved` what it moves. The parts of that are ranges of bytes with their holders before and after;
//! where they lie is read from the words, and a chain that is taken whole is walked in them. This project's own.
//!
//! Modules: `shifts` (what moves, by units and granules), `places` (where a unit lies), `chains` (what hangs together)
//! and `parts` (the parts of what moves).
#![tactic(auto)]

mod chains;
mod parts;
mod places;
mod shifts;

pub use chains::{Chain, find_spots};
pub use parts::add_moved;
pub use places::{Spot, place_of};
pub use shifts::{Moved, Shift, block_moved, cached_in, first_unit};
