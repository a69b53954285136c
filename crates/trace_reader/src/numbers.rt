//! Numbers.
ghost use Rattle.std.specs.Prelude.{◌≡◌, true, false};
ghost use Rattle.trace_reader.specs.Words.{IsNumberOf, IsPlain};

/// Whether the word is not empty, and begins neither with a plus nor with a zero before more.
fn is_plain(word: &[u8]) -> bool
    ensures yes { result ≡ true → IsPlain word.now }
    ensures no { result ≡ false → IsPlain word.now → ⊥ }
{
    if word.is_empty() || word[0] == b'+' {
        return false;
    }
    word[0] != b'0' || word.len() == 1
}

/// The number that a word spells: decimal digits with no zero in front but that of `0` itself.
pub fn read_number(word: &[u8]) -> Option<u64>
    ensures { IsNumberOf word.now result }
{
    if !is_plain(word) {
        return None;
    }
    let Ok(text) = std::str::from_utf8(word) else {
        return None;
    };
    let Ok(number) = text.parse::<u64>() else {
        return None;
    };
    Some(number)
}
