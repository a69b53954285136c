//! The calls of a line.
ghost use Rattle.std.specs.Prelude.{◌≡◌, ◌≢◌, ◌<◌, ◌≤◌, ◌+◌, true, false, map, codes, slice_get, Some, IsTrue, ◌↔◌};
ghost use Rattle.trace_reader.specs.Words.{bytes_in};
ghost use Rattle.trace_reader.specs.Combinators.{WordAt, Ends, Then};
ghost use Rattle.trace_reader.specs.Slots.{ReadsWhat};
ghost use Rattle.trace_reader.specs.Acts.{AnyNumber, BindingCall, PlainCall, NamedCall, ReadsCall, ReadsCallWord, binds};
ghost use Rattle.trace_reader.specs.Contexts.{context_of};
ghost use Rattle.trace_reader.specs.declared.keywords.CallWord.TheVariants.{MallocWord, AlignedWord, ReallocWord, AlignedReallocWord, FreeWord, MsizeWord, IdentifyWord, ExitWord};

use crate::acts::{TraceCall, What};
use crate::context::Context;
use crate::keywords::{CallWord, read_call_word};
use crate::refusal::Refusal;
use crate::slots::{end_at, new_name_at, number_at, size_at, what_at, word_at};
use crate::words::is_same;

/// Whether the word at this place is `=`.
pub fn is_equals_at(words: &[&[u8]], at: usize) -> bool
    ensures yes { result ≡ true → slice_get (map bytes_in words.now) at ≡ Some (codes "=") }
    ensures no { result ≡ false → slice_get (map bytes_in words.now) at ≢ Some (codes "=") }
{
    match word_at(words, at) {
        Ok(word) => is_same(word, b"="),
        Err(_) => false,
    }
}

/// Whether the call binds a name.
fn binds(call: CallWord) -> bool
    ensures { result ≡ binds call }
{
    match call {
        CallWord::MallocWord
        | CallWord::AlignedWord
        | CallWord::ReallocWord
        | CallWord::AlignedReallocWord => true,
        CallWord::FreeWord | CallWord::MsizeWord | CallWord::IdentifyWord | CallWord::ExitWord =>
            false,
    }
}

/// The call whose word stands at this place, of those that bind a name or of those that bind none.
fn call_word_at(binding: bool, words: &[&[u8]], at: usize) -> Result<CallWord, Refusal>
    ensures { WordAt (ReadsCallWord binding) (map bytes_in words.now) at result }
{
    match read_call_word(word_at(words, at)?) {
        Some(call) if binds(call) == binding => Ok(call),
        _ => Err(Refusal::Spelling),
    }
}

/// What a malloc asks for.
fn malloc_at(
    more: bool,
    context: &Context,
    name: u32,
    words: &[&[u8]],
    at: usize,
) -> Result<TraceCall, Refusal>
    requires { at < 100 }
    ensures { BindingCall more (context_of context.now) name MallocWord (map bytes_in words.now) at result }
{
    let size = size_at(more, words, at)?;
    end_at(words, at + 1)?;
    Ok(TraceCall::Malloc { name, size })
}

/// What an aligned malloc asks for.
fn aligned_at(
    more: bool,
    context: &Context,
    name: u32,
    words: &[&[u8]],
    at: usize,
) -> Result<TraceCall, Refusal>
    requires { at < 100 }
    ensures { BindingCall more (context_of context.now) name AlignedWord (map bytes_in words.now) at result }
{
    let size = number_at(words, at, 0, u64::MAX)?;
    let at = at + 1;
    let alignment = number_at(words, at, 0, u64::MAX)?;
    let at = at + 1;
    end_at(words, at)?;
    Ok(TraceCall::Aligned {
        name,
        size,
        alignment,
    })
}

/// What a realloc asks for.
fn realloc_at(
    more: bool,
    context: &Context,
    name: u32,
    words: &[&[u8]],
    at: usize,
) -> Result<TraceCall, Refusal>
    requires { at < 100 }
    ensures { BindingCall more (context_of context.now) name ReallocWord (map bytes_in words.now) at result }
{
    let what = what_at(context, words, at)?;
    let at = at + 1;
    let size = number_at(words, at, 0, u64::MAX)?;
    let at = at + 1;
    end_at(words, at)?;
    Ok(TraceCall::Realloc { name, what, size })
}

/// The size and the alignment that an aligned realloc asks for.
fn aligned_realloc_sizes_at(
    name: u32,
    what: What,
    words: &[&[u8]],
    at: usize,
) -> Result<TraceCall, Refusal>
    requires { at < 101 }
    ensures { Then AnyNumber (λ size. Then AnyNumber (λ alignment. Ends (TraceCall.AlignedRealloc name what size alignment)))
        (map bytes_in words.now) at result }
{
    let size = number_at(words, at, 0, u64::MAX)?;
    let at = at + 1;
    let alignment = number_at(words, at, 0, u64::MAX)?;
    let at = at + 1;
    end_at(words, at)?;
    Ok(TraceCall::AlignedRealloc {
        name,
        what,
        size,
        alignment,
    })
}

/// What an aligned realloc asks for.
fn aligned_realloc_at(
    more: bool,
    context: &Context,
    name: u32,
    words: &[&[u8]],
    at: usize,
) -> Result<TraceCall, Refusal>
    requires { at < 100 }
    ensures { BindingCall more (context_of context.now) name AlignedReallocWord (map bytes_in words.now) at result }
{
    let what = what_at(context, words, at)?;
    aligned_realloc_sizes_at(name, what, words, at + 1)
}

/// What follows the word of a call that binds a name.
fn binding_call_at(
    more: bool,
    context: &Context,
    name: u32,
    call: CallWord,
    words: &[&[u8]],
    at: usize,
) -> Result<TraceCall, Refusal>
    requires binding { binds call ≡ true }
    requires near { at < 100 }
    ensures { BindingCall more (context_of context.now) name call (map bytes_in words.now) at result }
{
    match call {
        CallWord::MallocWord => malloc_at(more, context, name, words, at),
        CallWord::AlignedWord => aligned_at(more, context, name, words, at),
        CallWord::ReallocWord => realloc_at(more, context, name, words, at),
        CallWord::AlignedReallocWord => aligned_realloc_at(more, context, name, words, at),
        CallWord::FreeWord | CallWord::MsizeWord | CallWord::IdentifyWord | CallWord::ExitWord =>
            unreachable!(),
    }
}

/// What a free is asked of.
fn free_at(context: &Context, words: &[&[u8]], at: usize) -> Result<TraceCall, Refusal>
    requires { at < 100 }
    ensures { PlainCall (context_of context.now) FreeWord (map bytes_in words.now) at result }
{
    let what = what_at(context, words, at)?;
    end_at(words, at + 1)?;
    Ok(TraceCall::Free { what })
}

/// What an msize is asked of.
fn msize_at(context: &Context, words: &[&[u8]], at: usize) -> Result<TraceCall, Refusal>
    requires { at < 100 }
    ensures { PlainCall (context_of context.now) MsizeWord (map bytes_in words.now) at result }
{
    let what = what_at(context, words, at)?;
    end_at(words, at + 1)?;
    Ok(TraceCall::Msize { what })
}

/// What an identify is asked of.
fn identify_at(context: &Context, words: &[&[u8]], at: usize) -> Result<TraceCall, Refusal>
    requires { at < 100 }
    ensures { PlainCall (context_of context.now) IdentifyWord (map bytes_in words.now) at result }
{
    let what = what_at(context, words, at)?;
    end_at(words, at + 1)?;
    Ok(TraceCall::Identify { what })
}

/// An exit, which asks for nothing.
fn exit_at(context: &Context, words: &[&[u8]], at: usize) -> Result<TraceCall, Refusal>
    ensures { PlainCall (context_of context.now) ExitWord (map bytes_in words.now) at result }
{
    end_at(words, at)?;
    Ok(TraceCall::Exit)
}

/// What follows the word of a call that binds no name.
fn plain_call_at(
    context: &Context,
    call: CallWord,
    words: &[&[u8]],
    at: usize,
) -> Result<TraceCall, Refusal>
    requires plain { binds call ≡ false }
    requires near { at < 100 }
    ensures { PlainCall (context_of context.now) call (map bytes_in words.now) at result }
{
    match call {
        CallWord::FreeWord => free_at(context, words, at),
        CallWord::MsizeWord => msize_at(context, words, at),
        CallWord::IdentifyWord => identify_at(context, words, at),
        CallWord::ExitWord => exit_at(context, words, at),
        CallWord::MallocWord
        | CallWord::AlignedWord
        | CallWord::ReallocWord
        | CallWord::AlignedReallocWord => { unreachable!() }
    }
}

/// The call that binds a name, from this place on.
fn named_call_at(
    more: bool,
    context: &Context,
    words: &[&[u8]],
    at: usize,
) -> Result<TraceCall, Refusal>
    requires { at < 50 }
    ensures { NamedCall more (context_of context.now) (map bytes_in words.now) at result }
{
    let name = new_name_at(context, words, at)?;
    let at = at + 1;
    let at = at + 1;
    let call = call_word_at(true, words, at)?;
    let at = at + 1;
    binding_call_at(more, context, name, call, words, at)
}

/// The call from this place on.
pub fn call_at(
    more: bool,
    context: &Context,
    words: &[&[u8]],
    at: usize,
) -> Result<TraceCall, Refusal>
    requires { at < 50 }
    ensures { ReadsCall more (context_of context.now) (map bytes_in words.now) at result }
{
    if is_equals_at(words, at + 1) {
        return named_call_at(more, context, words, at);
    }
    let call = call_word_at(false, words, at)?;
    plain_call_at(context, call, words, at + 1)
}
