//! What is wrong with a number.

use trace_reader::read_number;

/// What is wrong with a text in a number's place, where a number is from one to another. None where nothing is.
pub fn wrong_number(text: &str, low: u64, high: u64) -> Option<&'static str> {
    match read_number(text.as_bytes()) {
        Some(number) if low <= number && number <= high => None,
        Some(_) => Some(range_of(high)),
        None => Some(misspelt(text)),
    }
}

/// What numbers to this one are.
fn range_of(high: u64) -> &'static str {
    match high {
        1000000 => "a number of turns is from 1 to 1000000",
        4294967295 => "a span, a version and a reserved word are at most 4294967295",
        _ => "a number is at most 18446744073709551615",
    }
}

/// Why the text is no number below 2^64.
fn misspelt(text: &str) -> &'static str {
    let bytes = text.as_bytes();
    if bytes.is_empty() || !bytes.iter().all(|byte| byte.is_ascii_digit()) {
        return "a size or another number is written in decimal digits";
    }
    if bytes.first() == Some(&b'0') {
        return "a number has no zero in front";
    }
    "a number is at most 18446744073709551615"
}
