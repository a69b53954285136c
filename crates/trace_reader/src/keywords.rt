//! The fixed words of the language, and the names of rows.
ghost use Rattle.std.specs.Prelude.{◌≡◌};
ghost use Rattle.trace_reader.specs.Keywords.{IsCallWordOf, IsKeywordOf, IsRowOf, IsScriptWordOf};

use crate::words::is_same;
use pool_types::Row;

/// A word that begins a line which is no call.
#[derive(Clone, Copy, Debug, PartialEq, Eq)]
pub enum Keyword {
    ThreadsWord,
    PoolWord,
    RawWord,
    BeginWord,
    StepWord,
    UpToWord,
    FinishWord,
    ResetWord,
    DestroyWord,
}

/// A word that names a call.
#[derive(Clone, Copy, Debug, PartialEq, Eq)]
pub enum CallWord {
    MallocWord,
    AlignedWord,
    ReallocWord,
    AlignedReallocWord,
    FreeWord,
    MsizeWord,
    IdentifyWord,
    ExitWord,
}

/// A word for an entry of a pool's scripts.
#[derive(Clone, Copy, Debug, PartialEq, Eq)]
pub enum ScriptWord {
    GetWord,
    GetFailWord,
    PutOkWord,
    PutFailWord,
}

/// The keyword that the word is.
pub fn read_keyword(word: &[u8]) -> Option<Keyword>
    ensures { IsKeywordOf word.now result }
{
    if is_same(word, b"threads") {
        Some(Keyword::ThreadsWord)
    } else if is_same(word, b"pool") {
        Some(Keyword::PoolWord)
    } else if is_same(word, b"raw") {
        Some(Keyword::RawWord)
    } else if is_same(word, b"begin") {
        Some(Keyword::BeginWord)
    } else if is_same(word, b"step") {
        Some(Keyword::StepWord)
    } else if is_same(word, b"upto") {
        Some(Keyword::UpToWord)
    } else if is_same(word, b"finish") {
        Some(Keyword::FinishWord)
    } else if is_same(word, b"reset") {
        Some(Keyword::ResetWord)
    } else if is_same(word, b"destroy") {
        Some(Keyword::DestroyWord)
    } else {
        None
    }
}

/// The call that the word names.
pub fn read_call_word(word: &[u8]) -> Option<CallWord>
    ensures { IsCallWordOf word.now result }
{
    if is_same(word, b"malloc") {
        Some(CallWord::MallocWord)
    } else if is_same(word, b"aligned") {
        Some(CallWord::AlignedWord)
    } else if is_same(word, b"realloc") {
        Some(CallWord::ReallocWord)
    } else if is_same(word, b"arealloc") {
        Some(CallWord::AlignedReallocWord)
    } else if is_same(word, b"free") {
        Some(CallWord::FreeWord)
    } else if is_same(word, b"msize") {
        Some(CallWord::MsizeWord)
    } else if is_same(word, b"identify") {
        Some(CallWord::IdentifyWord)
    } else if is_same(word, b"exit") {
        Some(CallWord::ExitWord)
    } else {
        None
    }
}

/// The entry that the word is for.
pub fn read_script_word(word: &[u8]) -> Option<ScriptWord>
    ensures { IsScriptWordOf word.now result }
{
    if is_same(word, b"get") {
        Some(ScriptWord::GetWord)
    } else if is_same(word, b"getfail") {
        Some(ScriptWord::GetFailWord)
    } else if is_same(word, b"putok") {
        Some(ScriptWord::PutOkWord)
    } else if is_same(word, b"putfail") {
        Some(ScriptWord::PutFailWord)
    } else {
        None
    }
}

/// The row that the word names.
pub fn read_row(word: &[u8]) -> Option<Row>
    ensures { IsRowOf word.now result }
{
    for row in &Row::ALL {
        if is_same(row.name(), word) {
            return Some(*row);
        }
    }
    None
}
