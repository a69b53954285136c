//! A line that names the threads.
ghost use Rattle.std.specs.Prelude.{◌≡◌, ◌≢◌, ◌<◌, ◌≤◌, ℕ, [], true, false, map, drop, length, slice_get, Some};
ghost use Rattle.trace_reader.specs.Words.{bytes_in};
ghost use Rattle.trace_reader.specs.Acts.{AreThreadNames, IsNameJudged, KeywordLine, ReadsNames};
ghost use Rattle.pool_types.specs.Texts.{name_bytes};
ghost use Rattle.trace_reader.specs.Contexts.{context_of};
ghost use Rattle.trace_reader.specs.declared.keywords.Keyword.TheVariants.{ThreadsWord};

use crate::acts::Act;
use crate::context::Context;
use crate::names::{is_thread_name, read_thread_name};
use crate::refusal::Refusal;
use crate::words::is_same;
use arrayvec::ArrayVec;
use pool_types::ThreadName;
use pool_types::limits::MOST_THREADS;

/// Whether the word stands among these.
fn is_among(words: &[&[u8]], word: &[u8]) -> bool
    ensures yes { result ≡ true → (k : ℕ) × (slice_get (map bytes_in words.now) k ≡ Some word.now) }
    ensures no { result ≡ false → (k : ℕ) → slice_get (map bytes_in words.now) k ≢ Some word.now }
{
    for other in words {
        if is_same(other, word) {
            return true;
        }
    }
    false
}

/// Whether the word may stand as a name behind these.
fn judge_name(more: bool, had: &[&[u8]], word: &[u8]) -> Result<(), Refusal>
    ensures { IsNameJudged more (map bytes_in had.now) word.now result }
{
    if !had.is_empty() && !more {
        return Err(Refusal::NotServed);
    }
    if MOST_THREADS <= had.len() {
        return Err(Refusal::TooMany);
    }
    if !is_thread_name(word) {
        return Err(Refusal::Spelling);
    }
    if is_among(had, word) {
        return Err(Refusal::ThreadsAgain);
    }
    Ok(())
}

/// A line of these names.
fn names_line(more: bool, names: &[&[u8]]) -> Result<Act, Refusal>
    ensures { ReadsNames more [] (map bytes_in names.now) result }
{
    for (i, name) in names.iter().enumerate() {
        judge_name(more, &names[..i], name)?;
    }
    if names.is_empty() {
        return Err(Refusal::Spelling);
    }
    Ok(Act::Threads)
}

/// A line that names the threads.
pub fn threads_line(more: bool, context: &Context, words: &[&[u8]]) -> Result<Act, Refusal>
    requires { 0 < length words.now }
    ensures { KeywordLine more (context_of context.now) ThreadsWord (map bytes_in words.now) result }
{
    if !context.names.is_empty() || !context.pools.is_empty() {
        return Err(Refusal::ThreadsAgain);
    }
    names_line(more, &words[1..])
}

/// The names that the words spell.
pub fn thread_names(words: &[&[u8]]) -> ArrayVec<ThreadName, MOST_THREADS>
    requires { AreThreadNames (map bytes_in words.now) }
    ensures { map name_bytes result.items ≡ map bytes_in words.now }
{
    let mut names: ArrayVec<ThreadName, MOST_THREADS> = ArrayVec::new();
    for word in words {
        let Some(name) = read_thread_name(word) else {
            unreachable!();
        };
        names.push(name);
    }
    names
}
