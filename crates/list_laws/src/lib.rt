//! Lemmas over lists, tests and numbers alone, which the proofs of several crates cite. What std has is cited from std.
//!
//! There is no code. A topic is a module of `proofs/`, and other crates cite it by that name: `Members` (what is in a
//! list), `Counts` (how many members pass a test), `Gets` (what a list has at an index), `Finds` (the first member that
//! passes, and those that pass) and `Sums` (over members, and over the first numbers).
#![tactic(auto)]
