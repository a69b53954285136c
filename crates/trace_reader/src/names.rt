//! The names of threads, and those that a trace binds.
ghost use Rattle.std.specs.Prelude.{◌≡◌, ◌≢◌, ◌≤◌, true, false, IsTrue, ◌↔◌};
ghost use Rattle.std.specs.List.{list_all};
ghost use Rattle.pool_types.specs.Limits.{bound_name_bytes};
ghost use Rattle.trace_reader.specs.Names.{IsBoundName, IsThreadName, IsThreadNameOf, is_name, may_follow, name_key};

use crate::words::is_same;
use arrayvec::ArrayVec;
use pool_types::ThreadName;
use pool_types::limits::{BOUND_NAME_BYTES, THREAD_NAME_BYTES};

/// Whether the byte may stand behind the first letter of a name, whose letters begin at this one.
fn may_follow(first: u8, byte: u8) -> bool
    requires { first ≤ 97 }
    ensures { result ≡ may_follow first byte }
{
    (first <= byte && byte < first + 26) || (b'0' <= byte && byte <= b'9') || byte == b'_'
}

/// Whether all these bytes may stand behind the first letter.
fn may_all_follow(first: u8, bytes: &[u8]) -> bool
    requires { first ≤ 97 }
    ensures { result ≡ list_all (may_follow first) bytes.now }
{
    bytes.iter().all(|byte| may_follow(first, *byte))
}

/// Whether the word is a name of at most so many bytes, whose letters begin at this one.
fn is_name(first: u8, most: usize, word: &[u8]) -> bool
    requires { first ≤ 97 }
    ensures { result ≡ is_name first most word.now }
{
    match word {
        [] => false,
        [letter, more @ ..] => {
            if *letter < first || first + 26 <= *letter || most <= more.len() {
                return false;
            }
            may_all_follow(first, more)
        }
    }
}

/// Whether the word is spelled as a thread's name.
pub fn is_thread_name(word: &[u8]) -> bool
    ensures { IsTrue result ↔ IsThreadName word.now }
{
    is_name(b'A', THREAD_NAME_BYTES, word)
}

/// The thread's name that the word spells.
pub fn read_thread_name(word: &[u8]) -> Option<ThreadName>
    ensures { IsThreadNameOf word.now result }
{
    if !is_thread_name(word) {
        return None;
    }
    let bytes = ArrayVec::try_from(word).ok()?;
    Some(ThreadName { bytes })
}

/// Whether the word is spelled as the name of what a call answered: a letter a to z, and then up to 15 of a to z, 0 to 9
/// and `_`. It is not `null`.
pub fn is_bound_name(word: &[u8]) -> bool
    ensures { IsTrue result ↔ IsBoundName word.now }
{
    is_name(b'a', BOUND_NAME_BYTES, word) && !is_same(word, b"null")
}

/// A name's bytes as one number. Names are found by it, since numbers are compared faster than bytes.
pub fn name_key(word: &[u8]) -> u128
    requires { is_name 97 bound_name_bytes word.now ≡ true }
    ensures { result ≡ name_key word.now }
{
    let mut key = 0;
    for i in (0..word.len()).rev() {
        key = key * 256 + u128::from(word[i]);
    }
    key
}
