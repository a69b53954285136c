//! Modules: `bench` (a pool that is stepped), `worked` (the steps of worked calls), `waits` (turns that wait), `ends`
//! (resets, ends, and what a pool answers out of turn), `hands` (the blocks that a seat has in hand), `granules`
//! (where each granule is) and `random` (random runs).

mod bench;
mod ends;
mod granules;
mod hands;
mod random;
mod waits;
mod worked;
