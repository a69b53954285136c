//! The options of a pool line.
ghost use Rattle.std.specs.Prelude.{◌≡◌, ◌≢◌, ◌++◌, ◌+◌, ◌<◌, ◌≤◌, ◌^◌, length, List, ℕ, MatchOption, IfOk, map, drop, true, false};
ghost use Rattle.trace_reader.specs.Words.{bytes_in};
ghost use Rattle.trace_reader.specs.Options.{IsFlagOf, IsValueOf, ReadsOption, ReadsOptions, IsReadAsOptions, has_option, option_of, option_place, value_limit, value_text};

use crate::acts::PoolOption;
use crate::refusal::Refusal;
use crate::slots::{misread, number_in};
use crate::words::is_same;
use arrayvec::ArrayVec;

/// What stands in front of an option's number.
#[derive(Clone, Copy, Debug, PartialEq, Eq)]
pub enum ValueWord {
    GranValue,
    RegionValue,
    SpanValue,
    VersionValue,
    ReservedValue,
}

/// The option without a number that the word is.
fn read_flag(word: &[u8]) -> Option<PoolOption>
    ensures { IsFlagOf word.now result }
{
    if is_same(word, b"fixed") {
        Some(PoolOption::Fixed)
    } else if is_same(word, b"keep") {
        Some(PoolOption::Keep)
    } else if is_same(word, b"noget") {
        Some(PoolOption::NoGet)
    } else if is_same(word, b"nofree") {
        Some(PoolOption::NoFree)
    } else {
        None
    }
}

/// What follows this front in the word.
fn behind<'a>(front: &[u8], word: &'a [u8]) -> Option<&'a [u8]>
    ensures { MatchOption result ((rest : List ℕ) → word.now ≢ front.now ++ rest) (λ rest. word.now ≡ front.now ++ rest.now) }
{
    word.strip_prefix(front)
}

/// The option's word in front of a number, and the number's text.
fn read_value(word: &[u8]) -> Option<(ValueWord, &[u8])>
    ensures { IsValueOf word.now result }
{
    if let Some(rest) = behind(b"gran=", word) {
        Some((ValueWord::GranValue, rest))
    } else if let Some(rest) = behind(b"region=", word) {
        Some((ValueWord::RegionValue, rest))
    } else if let Some(rest) = behind(b"span=", word) {
        Some((ValueWord::SpanValue, rest))
    } else if let Some(rest) = behind(b"version=", word) {
        Some((ValueWord::VersionValue, rest))
    } else if let Some(rest) = behind(b"reserved=", word) {
        Some((ValueWord::ReservedValue, rest))
    } else {
        None
    }
}

/// The greatest_value number of an option.
fn greatest_value(value: ValueWord) -> u64
    ensures { result + 1 ≡ value_limit value }
{
    match value {
        ValueWord::GranValue | ValueWord::RegionValue => u64::MAX,
        ValueWord::SpanValue | ValueWord::VersionValue | ValueWord::ReservedValue => u64::from(
            u32::MAX,
        ),
    }
}

/// The option of this number.
fn option_of(value: ValueWord, number: u64) -> PoolOption
    requires { number < value_limit value }
    ensures { result ≡ option_of value number }
{
    match value {
        ValueWord::GranValue => PoolOption::Gran(number),
        ValueWord::RegionValue => PoolOption::Region(number),
        ValueWord::SpanValue => PoolOption::Span(number as u32),
        ValueWord::VersionValue => PoolOption::Version(number as u32),
        ValueWord::ReservedValue => PoolOption::Reserved(number as u32),
    }
}

/// The option that the word spells.
fn read_option(word: &[u8]) -> Result<PoolOption, Refusal>
    ensures { ReadsOption word.now result }
{
    if let Some(option) = read_flag(word) {
        return Ok(option);
    }
    let Some((value, rest)) = read_value(word) else {
        return Err(Refusal::Spelling);
    };
    match number_in(0, greatest_value(value), rest) {
        Ok(number) => Ok(option_of(value, number)),
        Err(_) => Err(misread(word)),
    }
}

/// The place of an option in the list of options.
fn option_place(option: PoolOption) -> u8
    ensures { result ≡ option_place option }
{
    match option {
        PoolOption::Fixed => 0,
        PoolOption::Keep => 1,
        PoolOption::NoGet => 2,
        PoolOption::NoFree => 3,
        PoolOption::Gran(_) => 4,
        PoolOption::Region(_) => 5,
        PoolOption::Span(_) => 6,
        PoolOption::Version(_) => 7,
        PoolOption::Reserved(_) => 8,
    }
}

/// Whether an option of the same place is among them.
fn has_option(options: &[PoolOption], option: PoolOption) -> bool
    ensures { result ≡ has_option options.now option }
{
    let place = option_place(option);
    options.iter().any(|other| place == option_place(*other))
}

/// The options that the words from this place on spell.
pub fn options_from(words: &[&[u8]], at: usize) -> Result<ArrayVec<PoolOption, 9>, Refusal>
    requires { at ≤ length words.now }
    ensures { IsReadAsOptions (drop at (map bytes_in words.now)) result }
{
    let mut options: ArrayVec<PoolOption, 9> = ArrayVec::new();
    for i in at..words.len() {
        let option = read_option(words[i])?;
        if has_option(options.as_slice(), option) {
            return Err(Refusal::PoolOrder);
        }
        options.push(option);
    }
    Ok(options)
}
