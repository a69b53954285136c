//! The link of a chain: the index of an item plus 1, or the end, which is 0. Heads of bins, of the queue, of
//! mailboxes, of orphans and of the cache's bins are links, and so are the words between the items of bins and
//! cache.

ghost use Rattle.std.specs.Prelude.{◌≡◌};
ghost use Rattle.word_codes.specs.Links.{link_of, link_word};

/// The link that ends a chain.
pub const END: u64 = 0;

/// The item that a link names, and none at the end.
#[tactic(auto, unfolding(crate::specs::Links::link_of))]
pub fn link_of(word: u64) -> Option<u64>
    ensures { result ≡ link_of word }
{
    word.checked_sub(1)
}

/// The link to an item, or the end.
#[tactic(auto, unfolding(crate::specs::Links::link_word))]
pub fn link_word(item: Option<u64>) -> u64
    ensures { result ≡ link_word item }
{
    match item {
        Some(index) => index.saturating_add(1),
        None => END,
    }
}
