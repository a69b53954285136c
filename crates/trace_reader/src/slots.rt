//! One word of a line, in its place.
ghost use Rattle.std.specs.Prelude.{◌≡◌, ◌≢◌, ◌≤◌, ◌<◌, ◌^◌, ◌-◌, ◌+◌, true, false, map, MatchResult, MatchOption, List, ℕ, ◌++◌, ◌∷◌, slice_get, Some, None, IsTrue, ◌↔◌, length};
ghost use Rattle.std.specs.List.{list_all};
ghost use Rattle.trace_reader.specs.Words.{bytes_in};
ghost use Rattle.trace_reader.specs.Combinators.{WordAt, Ends};
ghost use Rattle.trace_reader.specs.Slots.{IsMisread, ReadsNumber, ReadsSize, ReadsThread, ReadsPool, ReadsNextPool, ReadsNewName, ReadsWhat, IsPoolOf, IsPairOf, IsPlaceOf, is_text, is_printable};
ghost use Rattle.trace_reader.specs.Contexts.{context_of};

use crate::acts::What;
use crate::context::Context;
use crate::names::{is_bound_name, is_thread_name};
use crate::numbers::read_number;
use crate::refusal::Refusal;
use crate::words::{is_same, parted_at};
use pool_types::Place;
use pool_types::limits::{MOST_POOLS, REGION_NUMBERS};

/// The word at this place.
pub fn word_at<'a>(words: &[&'a [u8]], at: usize) -> Result<&'a [u8], Refusal>
    ensures { MatchResult result (λ word. slice_get (map bytes_in words.now) at ≡ Some word.now)
        (λ refusal. (slice_get (map bytes_in words.now) at ≡ None) × (refusal ≡ Refusal.Spelling)) }
{
    match words.get(at) {
        Some(word) => Ok(*word),
        None => Err(Refusal::Spelling),
    }
}

/// Whether the byte is one from space to `~`.
fn is_printable(byte: u8) -> bool
    ensures { result ≡ is_printable byte }
{
    b' ' <= byte && byte <= b'~'
}

/// Whether all these bytes are readable.
fn are_printable(bytes: &[u8]) -> bool
    ensures { result ≡ list_all is_printable bytes.now }
{
    bytes.iter().all(|byte| is_printable(*byte))
}

/// Whether the word is not empty, and all its bytes are readable.
fn is_text(word: &[u8]) -> bool
    ensures { result ≡ is_text word.now }
{
    match word {
        [] => false,
        [first, more @ ..] => is_printable(*first) && are_printable(more),
    }
}

/// What is wrong with a word that is no number, where one is due.
pub fn misread(word: &[u8]) -> Refusal
    ensures { IsMisread word.now result }
{
    if is_text(word) {
        Refusal::Number
    } else {
        Refusal::Spelling
    }
}

/// The number in this range that the word spells.
pub fn number_in(low: u64, high: u64, word: &[u8]) -> Result<u64, Refusal>
    ensures { ReadsNumber low high word.now result }
{
    let Some(number) = read_number(word) else {
        return Err(misread(word));
    };
    if number < low || high < number {
        return Err(misread(word));
    }
    Ok(number)
}

/// The number in this range at this place.
pub fn number_at(words: &[&[u8]], at: usize, low: u64, high: u64) -> Result<u64, Refusal>
    ensures { WordAt (ReadsNumber low high) (map bytes_in words.now) at result }
{
    number_in(low, high, word_at(words, at)?)
}

/// The pool whose word this is, from 0 to 7.
fn pool_of(word: &[u8]) -> Option<u16>
    ensures { IsPoolOf word.now result }
{
    if word.len() == 2 && word[0] == b'P' && b'0' <= word[1] && word[1] < b'8' {
        Some(u16::from(word[1] - b'0'))
    } else {
        None
    }
}

/// The pool that was made, at this place.
pub fn pool_at(context: &Context, words: &[&[u8]], at: usize) -> Result<u16, Refusal>
    ensures { WordAt (ReadsPool (context_of context.now)) (map bytes_in words.now) at result }
{
    let Some(pool) = pool_of(word_at(words, at)?) else {
        return Err(Refusal::Spelling);
    };
    if usize::from(pool) < context.pools.len() {
        Ok(pool)
    } else {
        Err(Refusal::UnknownPool)
    }
}

/// The next pool, at this place.
pub fn next_pool_at(context: &Context, words: &[&[u8]], at: usize) -> Result<u16, Refusal>
    ensures { WordAt (ReadsNextPool (context_of context.now)) (map bytes_in words.now) at result }
{
    let word = word_at(words, at)?;
    if usize::from(MOST_POOLS) <= context.pools.len() {
        return Err(Refusal::TooMany);
    }
    let Some(pool) = pool_of(word) else {
        return Err(Refusal::Spelling);
    };
    if usize::from(pool) == context.pools.len() {
        Ok(pool)
    } else {
        Err(Refusal::PoolOrder)
    }
}

/// The number of the name that is bound here, at this place.
pub fn new_name_at(context: &Context, words: &[&[u8]], at: usize) -> Result<u32, Refusal>
    ensures { WordAt (ReadsNewName (context_of context.now)) (map bytes_in words.now) at result }
{
    let word = word_at(words, at)?;
    if !is_bound_name(word) {
        return Err(Refusal::Spelling);
    }
    match context.number_of(word) {
        Some(_) => Err(Refusal::BoundBefore),
        None => Ok(context.count),
    }
}

/// The size at this place, where sizes above the small ones are served or not.
pub fn size_at(all: bool, words: &[&[u8]], at: usize) -> Result<u64, Refusal>
    ensures { WordAt (ReadsSize all) (map bytes_in words.now) at result }
{
    let size = number_in(0, u64::MAX, word_at(words, at)?)?;
    if all || size <= 8128 {
        Ok(size)
    } else {
        Err(Refusal::NotServed)
    }
}

/// The thread at this place.
pub fn thread_at(context: &Context, words: &[&[u8]], at: usize) -> Result<u8, Refusal>
    ensures { WordAt (ReadsThread (context_of context.now)) (map bytes_in words.now) at result }
{
    let word = word_at(words, at)?;
    if !is_thread_name(word) {
        return Err(Refusal::Spelling);
    }
    match context.position(word) {
        Some(thread) => Ok(thread),
        None => Err(Refusal::UnknownThread),
    }
}

/// The numbers of a region and an offset, with a plus between them.
fn read_pair(text: &[u8]) -> Option<(u32, u64)>
    ensures { IsPairOf text.now result }
{
    let Some((front, rest)) = parted_at(b'+', text) else {
        return None;
    };
    let Ok(region) = number_in(0, REGION_NUMBERS - 1, front) else {
        return None;
    };
    let Some(offset) = read_number(rest) else {
        return None;
    };
    Some((region as u32, offset))
}

/// The place that the word spells.
fn read_place(word: &[u8]) -> Option<Place>
    ensures { IsPlaceOf word.now result }
{
    let [letter, digit, dot, mark, rest @ ..] = word else {
        return None;
    };
    if *letter != b'P' || *digit < b'0' || b'8' <= *digit || *dot != b'.' || *mark != b'R' {
        return None;
    }
    let Some((region, offset)) = read_pair(rest) else {
        return None;
    };
    Some(Place {
        pool: u16::from(*digit - b'0'),
        region,
        offset,
    })
}

/// What the word stands for.
fn read_what(context: &Context, word: &[u8]) -> Result<What, Refusal>
    ensures { ReadsWhat (context_of context.now) word.now result }
{
    if is_same(word, b"null") {
        return Ok(What::Null);
    }
    if is_bound_name(word) {
        return match context.number_of(word) {
            Some(number) => Ok(What::Name(number)),
            None => Err(Refusal::UnboundName),
        };
    }
    match read_place(word) {
        Some(place) => Ok(What::Place(place)),
        None => Err(Refusal::Spelling),
    }
}

/// What the word at this place stands for.
pub fn what_at(context: &Context, words: &[&[u8]], at: usize) -> Result<What, Refusal>
    ensures { WordAt (ReadsWhat (context_of context.now)) (map bytes_in words.now) at result }
{
    read_what(context, word_at(words, at)?)
}

/// Nothing stands at this place or behind it.
pub fn end_at(words: &[&[u8]], at: usize) -> Result<(), Refusal>
    ensures { MatchResult result (λ _. length words.now ≤ at) (λ refusal. (refusal ≡ Refusal.Spelling) × (at < length words.now)) }
{
    if at < words.len() {
        Err(Refusal::Spelling)
    } else {
        Ok(())
    }
}
