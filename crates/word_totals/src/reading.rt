//! How a pool is read while nobody steps.

ghost use Rattle.std.specs.Prelude.{◌≡◌};
ghost use Rattle.pool_words.specs.Actions.{value};
ghost use Rattle.pool_words.specs.declared.words.Word.{Word as AnyWord};
ghost use Rattle.word_totals.specs.Reading.{Still, load, record_of, amid_of};

use crate::middle::Amid;
use heap_slabs::HeapSlab;
use pool_words::{Key, Word, value};
use step_local::Local;

/// A pool that is read while nobody steps: its key, its words, and what its seats keep.
pub trait AtRest {
    /// All that is read.
    ghost still: { Self → Still };

    /// What the pool was made with.
    fn key(&self) -> Key
        ensures { result ≡ (still self.now).key };

    /// The value of a word, and 0 where there is no such word.
    fn load(&mut self, word: Word) -> u64
        ensures found { result ≡ load (still self.old) word }
        ensures same { still self.new ≡ still self.old };

    /// The record of a slab, if this seat keeps it.
    fn record(&self, seat: u64, slab: u64) -> Option<HeapSlab>
        ensures { result ≡ record_of (still self.now) seat slab };

    /// What this seat has begun and not ended.
    fn amid(&self, seat: u64) -> Amid
        ensures { result ≡ amid_of (still self.now) seat };
}

/// The words and the seats of a pool for one thread.
#[derive(Drop)]
pub struct Reading<'a> {
    key: &'a Key,
    words: &'a [u64],
    locals: &'a [Local],
}

impl<'a> Reading<'a> {
    /// These words, which lie as the key says, and these seats, each at its number.
    pub fn of(key: &'a Key, words: &'a [u64], locals: &'a [Local]) -> Reading<'a>
        ensures key { result.key.now ≡ key.now }
        ensures words { result.words.now ≡ words.now }
        ensures locals { result.locals.now ≡ locals.now }
    {
        Reading { key, words, locals }
    }
}

/// The value of a mark. Marks are the first words of the row, so no other kind is looked at.
#[tactic(auto, using(crate::proofs::Marks::marks_first))]
fn mark(words: &[u64], key: &Key, unit: u64) -> u64
    ensures { result ≡ value key.now words.now (AnyWord.Mark unit) }
{
    if unit < 1024 * u64::from(key.span) && unit < words.len() as u64 {
        words[unit as usize]
    } else {
        value(words, key, Word::Mark(unit))
    }
}

impl<'a> AtRest for Reading<'a> {
    ghost still = { λ r. record { key = r.key.now; words = r.words.now; locals = r.locals.now } };

    fn key(&self) -> Key {
        *self.key
    }

    #[tactic(auto, unfolding(crate::specs::Reading::load))]
    fn load(&mut self, word: Word) -> u64 {
        match word {
            Word::Mark(unit) => mark(self.words, self.key, unit),
            _ => value(self.words, self.key, word),
        }
    }

    #[tactic(auto, unfolding(crate::specs::Reading::record_of))]
    fn record(&self, seat: u64, slab: u64) -> Option<HeapSlab> {
        match self.locals.get(seat as usize) {
            Some(local) => local.heap.slabs.find(slab),
            None => None,
        }
    }

    #[tactic(auto, unfolding(crate::specs::Reading::amid_of))]
    fn amid(&self, seat: u64) -> Amid {
        match self.locals.get(seat as usize) {
            Some(local) => Amid::of(local),
            None => Amid::Nothing,
        }
    }
}
