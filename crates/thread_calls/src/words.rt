//! What a name's word on the board stands for. A word of 0 is that of a name that is unset.
ghost use Rattle.std.specs.Prelude.{◌≡◌, ◌<◌, ◌≤◌};
ghost use Rattle.thread_calls.specs.Words.{null_word, is_small, word_of_place, place_of_word};

use pool_types::Place;

/// The word of null.
pub const NULL_WORD: u64 = 1;

/// Whether the place has a word of its own: its pool takes 3 bits, its region 22, and its offset 27.
fn is_small(place: Place) -> bool
    ensures { result ≡ is_small place }
{
    place.pool < 8 && place.region < 4194304 && place.offset < 134217728
}

/// The word that stands for the place, or that of null where the place has none.
pub fn word_of_place(place: Place) -> u64
    ensures { result ≡ word_of_place place }
{
    if is_small(place) {
        (u64::from(place.pool) * 4194304 + u64::from(place.region)) * 134217728 + place.offset + 2
    } else {
        NULL_WORD
    }
}

/// The place that the word stands for, or null.
pub fn place_of_word(word: u64) -> Option<Place>
    ensures { result ≡ place_of_word word }
{
    if word < 2 {
        return None;
    }
    let code = word - 2;
    Some(Place {
        pool: (code / 134217728 / 4194304 % 65536) as u16,
        region: (code / 134217728 % 4194304) as u32,
        offset: code % 134217728,
    })
}
