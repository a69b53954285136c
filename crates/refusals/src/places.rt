//! Where in a line the words of one meaning stand.
ghost use Rattle.std.specs.Prelude.{◌<◌};

use crate::lines::word_at;

/// The places of the words of a line: of its pool, of its thread, of what a call begins with, and of the call's word.
#[derive(Clone, Copy)]
pub struct Places {
    pub pool: usize,
    pub thread: usize,
    pub call: usize,
    pub word: usize,
}

/// The place of the call's word, where the call begins at this place: behind the `=`, if there is one.
fn call_word_at(words: &[&[u8]], at: usize) -> usize
    requires { at < 100 }
    ensures { result < 200 }
{
    if word_at(words, at + 1) == Some("=") {
        at + 2
    } else {
        at
    }
}

/// The places of a line whose first word is this.
pub fn places_of(words: &[&[u8]], first: &str) -> Places
    ensures { (result.pool < 200) × (result.thread < 200) × (result.call < 200) × (result.word < 200) }
{
    match first {
        "pool" | "raw" | "reset" | "destroy" => Places {
            pool: 1,
            thread: 0,
            call: 0,
            word: 0,
        },
        "begin" | "step" | "upto" | "finish" => Places {
            pool: 2,
            thread: 1,
            call: 3,
            word: call_word_at(words, 3),
        },
        _ => Places {
            pool: 1,
            thread: 0,
            call: 2,
            word: call_word_at(words, 2),
        },
    }
}
