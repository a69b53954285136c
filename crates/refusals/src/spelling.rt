//! What is wrong with the letters of a line, whatever its words are.

/// Whether a space stands behind another.
fn has_two_spaces(line: &[u8]) -> bool {
    let mut last = b'.';
    for byte in line {
        if last == b' ' && *byte == b' ' {
            return true;
        }
        last = *byte;
    }
    false
}

/// Whether a byte is not from space to `~`.
fn has_strange_byte(line: &[u8]) -> bool {
    line.iter().any(|byte| *byte < b' ' || b'~' < *byte)
}

/// What is wrong with the spaces of a line, if anything.
fn wrong_spaces(line: &[u8]) -> Option<&'static str> {
    if line.first() == Some(&b' ') {
        return Some("a space stands at the line's begin");
    }
    if line.last() == Some(&b' ') {
        return Some("a space stands at the line's end");
    }
    if has_two_spaces(line) {
        return Some("two spaces stand in a row: one space separates words");
    }
    None
}

/// What is wrong with the letters of a line, if anything.
pub fn wrong_letters(line: &[u8]) -> Option<&'static str> {
    if line.last() == Some(&b'\r') {
        return Some(
            "it ends with a carriage return, as Windows writes lines: end lines with a newline alone",
        );
    }
    if line.contains(&b'\t') {
        return Some("a tab stands in it: one space separates words");
    }
    if let Some(wrong) = wrong_spaces(line) {
        return Some(wrong);
    }
    if has_strange_byte(line) {
        return Some("a byte stands in it that is not from space to `~`");
    }
    None
}
