//! The word of a block in the queue: the link to the block behind it in 32 bits, and how many granules it has
//! in 32 bits.

ghost use Rattle.std.specs.Prelude.{◌≡◌};
ghost use Rattle.word_codes.specs.QueueLinks.{queue_link_of, queue_link_word};

use crate::links::{link_of, link_word};

#[derive(Clone, Copy)]
pub struct QueueLink {
    pub next: Option<u64>,
    pub granules: u64,
}

impl QueueLink {
    #[tactic(auto, unfolding(crate::specs::QueueLinks::queue_link_of))]
    pub fn of_word(word: u64) -> QueueLink
        ensures { result ≡ queue_link_of word }
    {
        QueueLink {
            next: link_of(word % 4294967296),
            granules: word / 4294967296,
        }
    }

    #[tactic(auto, unfolding(crate::specs::QueueLinks::queue_link_word))]
    pub fn word(self) -> u64
        ensures { result ≡ queue_link_word self }
    {
        link_word(self.next) % 4294967296 + 4294967296 * (self.granules % 4294967296)
    }
}
