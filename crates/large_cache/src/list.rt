//! The list of a cache bin's blocks, the newest first, each linked to the one behind it.

ghost use Rattle.std.specs.Prelude.{◌≡◌};
ghost use Rattle.large_cache.specs.List.{cut_behind};

use pool_words::{Action, Word};
use word_codes::END;

/// Ends the list behind this block, or the whole list where there is none that stays.
pub fn cut_behind(granules: u64, kept: Option<u64>) -> Action
    ensures { result ≡ cut_behind granules kept }
{
    match kept {
        Some(kept) => Action::Store(Word::CacheLink(kept), END),
        None => Action::Store(Word::CacheHead(granules), END),
    }
}
