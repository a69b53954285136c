//! The whole sentence on a refused line.

use crate::lines::{line_at, words_of};
use crate::reasons::{Reason, reason_for};
use std::alloc::{AllocError, Global};

/// The sentence for a reason.
fn sentence(alloc: Global, number: u32, reason: Reason<'_>) -> Result<String, AllocError> {
    let text = reason.text;
    match reason.word {
        Some(word) => format!(in alloc; "line {number}: `{word}`: {text}"),
        None => format!(in alloc; "line {number}: {text}"),
    }
}

/// Says what is wrong with the line of this number of a trace, that was refused as of this kind.
pub fn tell_refusal(
    alloc: Global,
    trace: &[u8],
    number: u32,
    kind: u8,
) -> Result<String, AllocError> {
    let line = line_at(trace, number).unwrap_or(b"".as_slice());
    let words = words_of(alloc, line)?;
    sentence(alloc, number, reason_for(line, words.as_slice(), kind))
}
