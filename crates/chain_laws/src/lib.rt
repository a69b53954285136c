//! Laws of chains: items that lead one to the next, which many seats push in front of and one takes whole.
//!
//! Lists of objects given back, mailboxes, orphans and the queue of blocks are such chains. Private lists and those of
//! the cache are chains too, of which one seat takes the front off, or replaces the last link. This project's own.
#![tactic(auto)]

pub mod laws;
