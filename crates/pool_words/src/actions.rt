//! The atomic steps, what they find, and what they make of the words.

ghost use Rattle.std.specs.Prelude.{◌≡◌, slice_index, slice_set};
ghost use Rattle.pool_words.specs.Actions.{finds, value, after_action, word_seen};

use crate::words::{Key, Word};
use pool_types::RegionRec;
use regions::ObtainError;

/// One step: an atomic action.
#[derive(Clone, Copy)]
pub enum Action {
    Load(Word),
    Store(Word, u64),
    Swap(Word, u64),
    /// Compare and exchange: it writes `to` where it finds `from`, and changes nothing where it finds another value.
    Exchange { word: Word, from: u64, to: u64 },
    /// Adds, modulo 2^64.
    Add(Word, u64),
    TakeOffice(OfficeJob),
    GiveOffice,
    Nothing,
}

/// What the office is taken for: to obtain a region with room for a block of so many granules, or to give back the
/// region whose first granule has this index.
#[derive(Clone, Copy)]
pub enum OfficeJob {
    Obtain { granules: u32 },
    Give { first: u32 },
}

/// What an action found. `Word` is the value before a load, a swap, an exchange or an addition; `Done` follows a
/// store, `GiveOffice` and `Nothing`; the others follow `TakeOffice`.
#[derive(Clone, Copy)]
pub enum Seen {
    Word(u64),
    Done,
    OfficeOut,
    Obtained(RegionRec),
    Refused(ObtainError),
    Given,
}

impl Seen {
    /// The value that was found, and 0 where none was.
    pub fn word(self) -> u64
        ensures { result ≡ word_seen self }
    {
        match self {
            Seen::Word(value) => value,
            Seen::Done | Seen::OfficeOut | Seen::Obtained(_) | Seen::Refused(_) | Seen::Given => 0,
        }
    }
}

/// The word's value, and 0 where there is no such word.
pub fn value(words: &[u64], key: &Key, word: Word) -> u64
    ensures { result ≡ value key.now words.now word }
{
    value_at(words, word.index(key))
}

/// The value before a load, a swap, an exchange or an addition; 0 for any other action, and where there is no such
/// word.
pub fn finds(words: &[u64], key: &Key, action: Action) -> u64
    ensures { result ≡ finds key.now words.now action }
{
    match action {
        Action::Load(word) => value(words, key, word),
        Action::Store(_, _) => 0,
        Action::Swap(word, _) => value(words, key, word),
        Action::Exchange { word, .. } => value(words, key, word),
        Action::Add(word, _) => value(words, key, word),
        Action::TakeOffice(_) => 0,
        Action::GiveOffice => 0,
        Action::Nothing => 0,
    }
}

/// Makes the action, and tells what it finds. Where there is no such word, it changes nothing.
pub fn performed(words: &mut [u64], key: &Key, action: Action) -> u64
    ensures words { words.new ≡ after_action key.now words.old action }
    ensures found { result ≡ finds key.now words.old action }
{
    match action {
        Action::Load(word) => value(words, key, word),
        Action::Store(word, value) => {
            set_at(words, word.index(key), value);
            0
        }
        Action::Swap(word, value) => {
            let index = word.index(key);
            let found = value_at(words, index);
            set_at(words, index, value);
            found
        }
        Action::Exchange { word, from, to } => {
            let index = word.index(key);
            let found = value_at(words, index);
            if found == from {
                set_at(words, index, to);
            }
            found
        }
        Action::Add(word, value) => {
            let index = word.index(key);
            let found = value_at(words, index);
            set_at(words, index, found.wrapping_add(value));
            found
        }
        Action::TakeOffice(_) => 0,
        Action::GiveOffice => 0,
        Action::Nothing => 0,
    }
}

/// The value at this index of the row, and 0 behind its end.
fn value_at(words: &[u64], index: usize) -> u64
    ensures { result ≡ slice_index words.now index }
{
    if index < words.len() { words[index] } else { 0 }
}

/// Sets the value at this index of the row; behind its end it changes nothing.
fn set_at(words: &mut [u64], index: usize, value: u64)
    ensures { words.new ≡ slice_set words.old index value }
{
    if index < words.len() {
        words[index] = value;
    }
}
