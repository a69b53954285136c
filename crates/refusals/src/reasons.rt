//! Why a line is refused, by the kind of what is wrong with it.
ghost use Rattle.std.specs.Prelude.{◌<◌};

use crate::forms::form_of;
use crate::lines::word_at;
use crate::numbers::wrong_number;
use crate::places::{Places, places_of};
use crate::spelling::wrong_letters;

/// The word that is refused, where one is, and why.
#[derive(Clone, Copy)]
pub struct Reason<'a> {
    pub word: Option<&'a str>,
    pub text: &'static str,
}

/// A reason that is no single word's.
fn of_line<'a>(text: &'static str) -> Reason<'a> {
    Reason { word: None, text }
}

/// The first of two places whose word is no number in the range.
fn wrong_one_of<'a>(
    words: &[&'a [u8]],
    places: [usize; 2],
    low: u64,
    high: u64,
) -> Option<Reason<'a>> {
    for at in places {
        if let Some(word) = word_at(words, at) {
            if let Some(text) = wrong_number(word, low, high) {
                return Some(Reason {
                    word: Some(word),
                    text,
                });
            }
        }
    }
    None
}

/// The wrong number of a call.
fn wrong_in_call<'a>(words: &[&'a [u8]], at: usize) -> Option<Reason<'a>>
    requires { at < 200 }
{
    let places = match word_at(words, at)? {
        "malloc" => [at + 1, at + 1],
        "aligned" => [at + 1, at + 2],
        "realloc" => [at + 2, at + 2],
        "arealloc" => [at + 2, at + 3],
        _ => return None,
    };
    wrong_one_of(words, places, 0, u64::MAX)
}

/// What is wrong with the number of an option, if anything.
fn wrong_option(word: &str) -> Option<&'static str> {
    let (name, number) = word.split_once('=')?;
    let high = match name {
        "span" | "version" | "reserved" => u64::from(u32::MAX),
        _ => u64::MAX,
    };
    wrong_number(number, 0, high)
}

/// The wrong number of a pool's option.
fn wrong_in_options<'a>(words: &[&'a [u8]]) -> Option<Reason<'a>> {
    for at in 2..words.len() {
        if let Some(word) = word_at(words, at) {
            if let Some(text) = wrong_option(word) {
                return Some(Reason {
                    word: Some(word),
                    text,
                });
            }
        }
    }
    None
}

/// The wrong number of a line.
fn wrong_number_in<'a>(words: &[&'a [u8]], first: &str, places: Places) -> Option<Reason<'a>>
    requires { places.word < 200 }
{
    match first {
        "pool" => wrong_in_options(words),
        "raw" => wrong_one_of(words, [3, 4], 0, u64::MAX),
        "step" => wrong_one_of(words, [3, 3], 1, 1000000),
        _ => wrong_in_call(words, places.word),
    }
}

/// Why there are too many, by the line's first word.
fn too_many(first: &str) -> &'static str {
    match first {
        "threads" => "a trace has at most 64 threads",
        "pool" => "a trace has at most 8 pools",
        _ => "a trace has at most 65536 lines",
    }
}

/// Why a pool's line is out of its order.
fn out_of_order<'a>(words: &[&'a [u8]], places: Places) -> Reason<'a> {
    Reason {
        word: word_at(words, places.pool),
        text: "pools are made in the order P0, P1 and so on, and an option stands once",
    }
}

/// Why the spelling is refused.
fn misspelt<'a>(line: &[u8], first: &str) -> Reason<'a> {
    match wrong_letters(line) {
        Some(text) => of_line(text),
        None => of_line(form_of(first)),
    }
}

/// Why the name of what is asked is refused.
fn unbound<'a>(words: &[&'a [u8]], places: Places) -> Reason<'a>
    requires { places.word < 200 }
{
    Reason {
        word: word_at(words, places.word + 1),
        text: "no earlier line binds this name",
    }
}

/// Why a line that is a whole text is refused, by the kind.
fn by_kind<'a>(line: &[u8], words: &[&'a [u8]], first: &str, kind: u8) -> Reason<'a> {
    let places = places_of(words, first);
    match kind {
        1 => misspelt(line, first),
        2 => match wrong_number_in(words, first, places) {
            Some(reason) => reason,
            None => of_line("a number is missing or out of its range"),
        },
        3 => Reason {
            word: word_at(words, places.pool),
            text: "no earlier `pool` line has this pool",
        },
        4 => Reason {
            word: word_at(words, places.thread),
            text: "the `threads` line does not name this thread",
        },
        5 => unbound(words, places),
        6 => Reason {
            word: word_at(words, places.call),
            text: "an earlier line has bound this name; give each call a name of its own",
        },
        7 => out_of_order(words, places),
        8 => of_line("all threads are named in one line, each once, before the first pool"),
        9 => of_line(too_many(first)),
        10 => of_line("a line has at most 1024 bytes before its newline"),
        11 => of_line("the last line has no newline"),
        _ => Reason {
            word: word_at(words, 0),
            text: "threads run whole calls, and no line of this form; `poolreplay replay` does",
        },
    }
}

/// Why a line of these words is refused, by the kind.
pub fn reason_for<'a>(line: &[u8], words: &[&'a [u8]], kind: u8) -> Reason<'a> {
    match word_at(words, 0) {
        Some(first) => by_kind(line, words, first, kind),
        None => misspelt(line, ""),
    }
}
