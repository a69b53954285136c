//! Laws of the queue: its chain has each queued block once, and a chain that was taken is in one seat's hand.
//!
//! A block's granules in its link, beside the next block, are this project's own.
#![tactic(auto)]

pub mod laws;
