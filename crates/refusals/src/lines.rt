//! A line of a text, and its words.

use std::alloc::{AllocError, Global};

/// What stands behind the first of these bytes, or nothing.
fn behind(byte: u8, text: &[u8]) -> Option<&[u8]> {
    let at = text.iter().position(|other| *other == byte)?;
    text.get(at + 1..)
}

/// What stands before the first of these bytes, or all.
fn before(byte: u8, text: &[u8]) -> &[u8] {
    match text.iter().position(|other| *other == byte) {
        Some(at) => text.get(..at).unwrap_or(text),
        None => text,
    }
}

/// The line of this number, counted from 1, without its newline.
pub fn line_at(text: &[u8], number: u32) -> Option<&[u8]> {
    let mut rest = text;
    for _ in 1..number {
        rest = behind(b'\n', rest)?;
    }
    Some(before(b'\n', rest))
}

/// A line that is not too long has at most so many words.
const MOST_WORDS: u32 = 1025;

/// The words of a line, which single spaces part.
pub fn words_of<'a>(alloc: Global, line: &'a [u8]) -> Result<Vec<&'a [u8]>, AllocError> {
    let mut words = Vec::new(alloc);
    let mut rest = Some(line);
    for _ in 0..MOST_WORDS {
        if let Some(text) = rest {
            words.push(before(b' ', text))?;
            rest = behind(b' ', text);
        }
    }
    Ok(words)
}

/// The word at this place, as text.
pub fn word_at<'a>(words: &[&'a [u8]], at: usize) -> Option<&'a str> {
    let word = *words.get(at)?;
    std::str::from_utf8(word).ok()
}
