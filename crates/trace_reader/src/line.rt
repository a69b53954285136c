//! One line of a trace, word by word.
ghost use Rattle.std.specs.Prelude.{◌≡◌, ◌≢◌, ◌<◌, ◌≤◌, ◌+◌, ◌⊎◌, [], ◌∷◌, true, false, map, drop, length, codes, slice_get, Some, None, IsTrue, ◌↔◌, MatchOption};
ghost use Rattle.pool_types.specs.Limits.{most_turns};
ghost use Rattle.trace_reader.specs.Words.{bytes_in};
ghost use Rattle.trace_reader.specs.Combinators.{WordAt, Ends, Then, Wraps};
ghost use Rattle.trace_reader.specs.Slots.{ReadsNumber};
ghost use Rattle.trace_reader.specs.Acts.{CallLine, Calls, IsCalled, IsFirstWord, IsPlainPool, KeywordLine, PoolOptions, RawEntry, ReadsCall, ReadsRow, ReadsScriptWord, ReadsWords, serves_call, serves_keyword, serves_more};
ghost use Rattle.trace_reader.specs.Contexts.{context_of};
ghost use Rattle.trace_reader.specs.Keywords.{call_text};
ghost use Rattle.trace_reader.specs.declared.keywords.CallWord.{CallWord};
ghost use Rattle.trace_reader.specs.declared.keywords.Keyword.TheVariants.{ThreadsWord, PoolWord, RawWord, BeginWord, StepWord, UpToWord, FinishWord, ResetWord, DestroyWord};

use crate::acts::{Act, Forms, PoolOption};
use crate::calls::{call_at, is_equals_at};
use crate::context::Context;
use crate::keywords::{
    CallWord, Keyword, ScriptWord, read_call_word, read_keyword, read_row, read_script_word,
};
use crate::options::options_from;
use crate::refusal::Refusal;
use crate::slots::{end_at, next_pool_at, number_at, pool_at, thread_at, word_at};
use crate::threads::threads_line;
use pool_types::Row;
use pool_types::limits::MOST_TURNS;

/// The script's entry whose word stands at this place.
fn script_word_at(words: &[&[u8]], at: usize) -> Result<ScriptWord, Refusal>
    ensures { WordAt ReadsScriptWord (map bytes_in words.now) at result }
{
    match read_script_word(word_at(words, at)?) {
        Some(script) => Ok(script),
        None => Err(Refusal::Spelling),
    }
}

/// The row whose name stands at this place.
fn row_at(words: &[&[u8]], at: usize) -> Result<Row, Refusal>
    ensures { WordAt ReadsRow (map bytes_in words.now) at result }
{
    match read_row(word_at(words, at)?) {
        Some(row) => Ok(row),
        None => Err(Refusal::Spelling),
    }
}

/// Whether the options are those of a pool with no option but `fixed`.
fn is_fixed_alone(options: &[PoolOption]) -> bool
    ensures yes { result ≡ true → options.now ≡ PoolOption.Fixed ∷ [] }
    ensures no { result ≡ false → options.now ≢ PoolOption.Fixed ∷ [] }
{
    match options {
        [PoolOption::Fixed] => true,
        _ => false,
    }
}

/// Whether the pool line is `pool P0 fixed`.
fn is_plain_pool(pool: u16, options: &[PoolOption]) -> bool
    ensures { IsTrue result ↔ IsPlainPool pool options.now }
{
    pool == 0 && is_fixed_alone(options)
}

/// What follows the pool of a pool line.
fn pool_options_at(more: bool, pool: u16, words: &[&[u8]], at: usize) -> Result<Act, Refusal>
    requires { at ≤ length words.now }
    ensures { PoolOptions more pool (map bytes_in words.now) at result }
{
    let options = options_from(words, at)?;
    if more || is_plain_pool(pool, options.as_slice()) {
        Ok(Act::Pool { pool })
    } else {
        Err(Refusal::NotServed)
    }
}

/// A pool line.
fn pool_line(more: bool, context: &Context, words: &[&[u8]]) -> Result<Act, Refusal>
    ensures { KeywordLine more (context_of context.now) PoolWord (map bytes_in words.now) result }
{
    let pool = next_pool_at(context, words, 1)?;
    pool_options_at(more, pool, words, 2)
}

/// What a raw line enters as the answer of a `get`.
fn raw_get_at(pool: u16, words: &[&[u8]], at: usize) -> Result<Act, Refusal>
    requires { at < 100 }
    ensures { RawEntry pool ScriptWord.GetWord (map bytes_in words.now) at result }
{
    let base = number_at(words, at, 0, u64::MAX)?;
    let at = at + 1;
    let bytes = number_at(words, at, 0, u64::MAX)?;
    let at = at + 1;
    end_at(words, at)?;
    Ok(Act::RawGet { pool, base, bytes })
}

/// What follows the word for a script's entry.
fn raw_entry_at(pool: u16, script: ScriptWord, words: &[&[u8]], at: usize) -> Result<Act, Refusal>
    requires { at < 100 }
    ensures { RawEntry pool script (map bytes_in words.now) at result }
{
    match script {
        ScriptWord::GetWord => raw_get_at(pool, words, at),
        ScriptWord::GetFailWord => {
            end_at(words, at)?;
            Ok(Act::RawGetFail { pool })
        }
        ScriptWord::PutOkWord => {
            end_at(words, at)?;
            Ok(Act::RawPutOk { pool })
        }
        ScriptWord::PutFailWord => {
            end_at(words, at)?;
            Ok(Act::RawPutFail { pool })
        }
    }
}

/// A raw line.
fn raw_line(more: bool, context: &Context, words: &[&[u8]]) -> Result<Act, Refusal>
    ensures { KeywordLine more (context_of context.now) RawWord (map bytes_in words.now) result }
{
    let pool = pool_at(context, words, 1)?;
    let script = script_word_at(words, 2)?;
    raw_entry_at(pool, script, words, 3)
}

/// The call that a begin line begins.
fn begun_call_at(
    more: bool,
    context: &Context,
    thread: u8,
    pool: u16,
    words: &[&[u8]],
    at: usize,
) -> Result<Act, Refusal>
    requires { at < 50 }
    ensures { Wraps (Act.Begin thread pool) (ReadsCall more (context_of context.now)) (map bytes_in words.now) at result }
{
    let call = call_at(more, context, words, at)?;
    Ok(Act::Begin { thread, pool, call })
}

/// A begin line.
fn begin_line(more: bool, context: &Context, words: &[&[u8]]) -> Result<Act, Refusal>
    ensures { KeywordLine more (context_of context.now) BeginWord (map bytes_in words.now) result }
{
    let thread = thread_at(context, words, 1)?;
    let pool = pool_at(context, words, 2)?;
    begun_call_at(more, context, thread, pool, words, 3)
}

/// How many turns a step line makes.
fn turns_at(thread: u8, pool: u16, words: &[&[u8]], at: usize) -> Result<Act, Refusal>
    requires { at < 100 }
    ensures { Then (ReadsNumber 1 most_turns) (λ turns. Ends (Act.Step thread pool turns)) (map bytes_in words.now) at result }
{
    let turns = number_at(words, at, 1, MOST_TURNS)?;
    end_at(words, at + 1)?;
    Ok(Act::Step {
        thread,
        pool,
        turns: turns as u32,
    })
}

/// A step line.
fn step_line(more: bool, context: &Context, words: &[&[u8]]) -> Result<Act, Refusal>
    ensures { KeywordLine more (context_of context.now) StepWord (map bytes_in words.now) result }
{
    let thread = thread_at(context, words, 1)?;
    let pool = pool_at(context, words, 2)?;
    turns_at(thread, pool, words, 3)
}

/// The row that an upto line goes to.
fn last_row_at(thread: u8, pool: u16, words: &[&[u8]], at: usize) -> Result<Act, Refusal>
    requires { at < 100 }
    ensures { Then ReadsRow (λ row. Ends (Act.UpTo thread pool row)) (map bytes_in words.now) at result }
{
    let row = row_at(words, at)?;
    end_at(words, at + 1)?;
    Ok(Act::UpTo { thread, pool, row })
}

/// An upto line.
fn up_to_line(more: bool, context: &Context, words: &[&[u8]]) -> Result<Act, Refusal>
    ensures { KeywordLine more (context_of context.now) UpToWord (map bytes_in words.now) result }
{
    let thread = thread_at(context, words, 1)?;
    let pool = pool_at(context, words, 2)?;
    last_row_at(thread, pool, words, 3)
}

/// A finish line.
fn finish_line(more: bool, context: &Context, words: &[&[u8]]) -> Result<Act, Refusal>
    ensures { KeywordLine more (context_of context.now) FinishWord (map bytes_in words.now) result }
{
    let thread = thread_at(context, words, 1)?;
    let pool = pool_at(context, words, 2)?;
    end_at(words, 3)?;
    Ok(Act::Finish { thread, pool })
}

/// A reset line.
fn reset_line(more: bool, context: &Context, words: &[&[u8]]) -> Result<Act, Refusal>
    ensures { KeywordLine more (context_of context.now) ResetWord (map bytes_in words.now) result }
{
    let pool = pool_at(context, words, 1)?;
    end_at(words, 2)?;
    Ok(Act::Reset { pool })
}

/// A destroy line.
fn destroy_line(more: bool, context: &Context, words: &[&[u8]]) -> Result<Act, Refusal>
    ensures { KeywordLine more (context_of context.now) DestroyWord (map bytes_in words.now) result }
{
    let pool = pool_at(context, words, 1)?;
    end_at(words, 2)?;
    Ok(Act::Destroy { pool })
}

/// The call that a line makes whole.
fn whole_call_at(
    more: bool,
    context: &Context,
    thread: u8,
    pool: u16,
    words: &[&[u8]],
    at: usize,
) -> Result<Act, Refusal>
    requires { at < 50 }
    ensures { Wraps (Act.Call thread pool) (ReadsCall more (context_of context.now)) (map bytes_in words.now) at result }
{
    let call = call_at(more, context, words, at)?;
    Ok(Act::Call { thread, pool, call })
}

/// A line that begins with a thread and makes a whole call.
fn call_line(more: bool, context: &Context, words: &[&[u8]]) -> Result<Act, Refusal>
    ensures { CallLine more (context_of context.now) (map bytes_in words.now) result }
{
    let thread = thread_at(context, words, 0)?;
    let pool = pool_at(context, words, 1)?;
    whole_call_at(more, context, thread, pool, words, 2)
}

/// Whether lines of this keyword are served.
fn serves_keyword(forms: Forms, key: Keyword) -> bool
    ensures { result ≡ serves_keyword forms key }
{
    match forms {
        Forms::All => true,
        Forms::Plain => match key {
            Keyword::ThreadsWord | Keyword::PoolWord => true,
            Keyword::RawWord
            | Keyword::BeginWord
            | Keyword::StepWord
            | Keyword::UpToWord
            | Keyword::FinishWord
            | Keyword::ResetWord
            | Keyword::DestroyWord => false,
        },
        Forms::Threads => match key {
            Keyword::ThreadsWord | Keyword::PoolWord | Keyword::RawWord => true,
            Keyword::BeginWord
            | Keyword::StepWord
            | Keyword::UpToWord
            | Keyword::FinishWord
            | Keyword::ResetWord
            | Keyword::DestroyWord => false,
        },
    }
}

/// Whether the call is served.
fn serves_call(forms: Forms, call: CallWord) -> bool
    ensures { result ≡ serves_call forms call }
{
    match forms {
        Forms::All | Forms::Threads => true,
        Forms::Plain => match call {
            CallWord::MallocWord
            | CallWord::FreeWord
            | CallWord::MsizeWord
            | CallWord::IdentifyWord => true,
            CallWord::AlignedWord
            | CallWord::ReallocWord
            | CallWord::AlignedReallocWord
            | CallWord::ExitWord => false,
        },
    }
}

/// Whether more than one thread, pools other than the plain one and great sizes are served.
fn serves_more(forms: Forms) -> bool
    ensures { result ≡ serves_more forms }
{
    match forms {
        Forms::All | Forms::Threads => true,
        Forms::Plain => false,
    }
}

/// The keyword that stands first.
fn first_keyword(words: &[&[u8]]) -> Option<Keyword>
    ensures { IsFirstWord (map bytes_in words.now) result }
{
    match word_at(words, 0) {
        Ok(word) => read_keyword(word),
        Err(_) => None,
    }
}

/// The call whose word stands at this place.
fn call_named_at(words: &[&[u8]], at: usize) -> Option<CallWord>
    ensures { MatchOption result ((call : CallWord) → slice_get (map bytes_in words.now) at ≢ Some (call_text call))
        (λ call. slice_get (map bytes_in words.now) at ≡ Some (call_text call)) }
{
    match word_at(words, at) {
        Ok(word) => read_call_word(word),
        Err(_) => None,
    }
}

/// The call that the words make: its word is the fifth where the fourth is `=`, else the third.
fn called(words: &[&[u8]]) -> Option<CallWord>
    ensures { IsCalled (map bytes_in words.now) result }
{
    if is_equals_at(words, 3) {
        call_named_at(words, 4)
    } else {
        call_named_at(words, 2)
    }
}

/// Whether the words make a call that is not served.
fn has_unserved_call(forms: Forms, words: &[&[u8]]) -> bool
    ensures yes { result ≡ true → (call : CallWord) × Calls (map bytes_in words.now) call × (serves_call forms call ≡ false) }
    ensures no { result ≡ false → (call : CallWord) → Calls (map bytes_in words.now) call → serves_call forms call ≡ true }
{
    match called(words) {
        Some(call) => !serves_call(forms, call),
        None => false,
    }
}

/// The line whose first word is this keyword.
fn keyword_line(
    more: bool,
    context: &Context,
    key: Keyword,
    words: &[&[u8]],
) -> Result<Act, Refusal>
    requires { 0 < length words.now }
    ensures { KeywordLine more (context_of context.now) key (map bytes_in words.now) result }
{
    match key {
        Keyword::ThreadsWord => threads_line(more, context, words),
        Keyword::PoolWord => pool_line(more, context, words),
        Keyword::RawWord => raw_line(more, context, words),
        Keyword::BeginWord => begin_line(more, context, words),
        Keyword::StepWord => step_line(more, context, words),
        Keyword::UpToWord => up_to_line(more, context, words),
        Keyword::FinishWord => finish_line(more, context, words),
        Keyword::ResetWord => reset_line(more, context, words),
        Keyword::DestroyWord => destroy_line(more, context, words),
    }
}

/// What the words of a line mean, where these forms are served.
pub fn read_words(forms: Forms, context: &Context, words: &[&[u8]]) -> Result<Act, Refusal>
    ensures { ReadsWords forms (context_of context.now) (map bytes_in words.now) result }
{
    let Some(key) = first_keyword(words) else {
        if has_unserved_call(forms, words) {
            return Err(Refusal::NotServed);
        }
        return call_line(serves_more(forms), context, words);
    };
    if !serves_keyword(forms, key) {
        return Err(Refusal::NotServed);
    }
    keyword_line(serves_more(forms), context, key, words)
}
