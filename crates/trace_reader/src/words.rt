//! The parts of a text: its lines, and the words of a line.
ghost use Rattle.std.specs.Prelude.{◌≡◌, ◌≢◌, true, false, List, ℕ, ◌∷◌, ◌++◌, map, OnOk, MatchOption};
ghost use Rattle.trace_reader.specs.Words.{HasNo, split_on, bytes_in};

use std::alloc::AllocError;

/// Whether the bytes are the same.
pub fn is_same(one: &[u8], other: &[u8]) -> bool
    ensures yes { result ≡ true → one.now ≡ other.now }
    ensures no { result ≡ false → one.now ≢ other.now }
{
    one == other
}

/// What stands before the first such byte, and what behind it.
pub fn parted_at(byte: u8, text: &[u8]) -> Option<(&[u8], &[u8])>
    ensures { MatchOption result (HasNo byte text.now)
        (λ parts. (text.now ≡ parts.0.now ++ byte ∷ parts.1.now) × HasNo byte parts.0.now) }
{
    for (i, other) in text.iter().enumerate() {
        if *other == byte {
            return Some((&text[..i], &text[i + 1..]));
        }
    }
    None
}

/// The parts of a text that the separators divide, one more than there are separators, in place of what the list had.
pub fn split_parts<'a>(
    separator: u8,
    text: &'a [u8],
    parts: &mut Vec<&'a [u8]>,
) -> Result<(), AllocError>
    ensures { OnOk result (map bytes_in parts.new.items ≡ split_on separator text.now) }
{
    parts.clear();
    let mut rest = text;
    while let Some((part, more)) = parted_at(separator, rest) {
        parts.push(part)?;
        rest = more;
    }
    parts.push(rest)?;
    Ok(())
}
