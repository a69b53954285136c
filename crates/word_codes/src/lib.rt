//! What the words of a pool say: each kind of word is read as a value, and each value has a word.
//!
//! Every number is read as something, so a reader never refuses; every value is written, and one that is in its
//! range reads back as it was. Fields are told apart by division and remainder. That the values stand in single
//! words, and how, is this project's own; what they mean is tbbmalloc's (`FreeObject`, `Block`, `GuardedSize`,
//! `LargeMemoryBlock` and more), but for marks, kinds and region words, which stand in place of addresses and
//! headers in memory.
//!
//! Modules: one for each kind of word (`marks`, `kinds`, `owns`, `publics`, `nexts`, `guards`, `links`, `queue_links`,
//! `locks`, `region_words`), `places` (where units, granules and slots are), and `laws`.
#![tactic(auto)]

pub mod guards;
pub mod kinds;
pub mod laws;
pub mod links;
pub mod locks;
pub mod marks;
pub mod nexts;
pub mod owns;
pub mod places;
pub mod publics;
pub mod queue_links;
pub mod region_words;
#[cfg(test)]
mod tests;

pub use guards::Guard;
pub use kinds::Kind;
pub use links::{END, link_of, link_word};
pub use locks::{FREE, holder_of, lock_word};
pub use marks::{Mark, private_link, public_link};
pub use nexts::{MailKey, Next};
pub use owns::Own;
pub use places::{granule_of, slab_granule, slot_of};
pub use publics::Public;
pub use queue_links::QueueLink;
pub use region_words::RegionWord;
