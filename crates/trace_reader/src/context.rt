//! What stands before a line.
ghost use Rattle.std.specs.Prelude.{◌≡◌, ◌<◌, ◌≤◌, ◌^◌, length, OnOk, map, drop, Some, None, Ok};
ghost use Rattle.trace_reader.specs.Words.{bytes_in};
ghost use Rattle.trace_reader.specs.Acts.{Enters, MayBind, MayEnter, bound_by, with_bound, word_in};
ghost use Rattle.trace_reader.specs.Names.{IsBoundName};
ghost use Rattle.trace_reader.specs.Text.{nothing_yet};
ghost use Rattle.trace_reader.specs.Slots.{IsPositionOf};
ghost use Rattle.trace_reader.specs.Contexts.{context_of};

use crate::acts::{Act, PoolOption, TraceCall};
use crate::names::name_key;
use crate::options::options_from;
use crate::threads::thread_names;
use crate::words::is_same;
use arrayvec::ArrayVec;
use pool_types::ThreadName;
use pool_types::limits::MOST_THREADS;
use std::alloc::{AllocError, Global};
use std::collections::BTreeMap;

/// The threads that were named, the options of the pools that were made, the numbers of the names that were bound, by
/// their keys, and how many were.
#[derive(Drop)]
pub struct Context {
    pub names: ArrayVec<ThreadName, MOST_THREADS>,
    pub pools: Vec<ArrayVec<PoolOption, 9>>,
    pub bound: BTreeMap<u128, u32>,
    pub count: u32,
}

/// The number of the name that the call binds.
fn bound_by(call: &TraceCall) -> Option<u32>
    ensures { result ≡ bound_by call.now }
{
    match call {
        TraceCall::Malloc { name, .. }
        | TraceCall::Aligned { name, .. }
        | TraceCall::Realloc { name, .. }
        | TraceCall::AlignedRealloc { name, .. } => Some(*name),
        TraceCall::Free { .. }
        | TraceCall::Msize { .. }
        | TraceCall::Identify { .. }
        | TraceCall::Exit => None,
    }
}

/// The word in this place, or no bytes where there is none.
fn word_in<'a>(words: &[&'a [u8]], at: usize) -> &'a [u8]
    ensures { result.now ≡ word_in (map bytes_in words.now) at }
{
    match words.get(at) {
        Some(word) => *word,
        None => b"",
    }
}

impl Context {
    /// Nothing is named, made or bound.
    pub fn new(alloc: Global) -> Self
        ensures { context_of result ≡ nothing_yet }
    {
        Context {
            names: ArrayVec::new(),
            pools: Vec::new(alloc),
            bound: BTreeMap::new(alloc),
            count: 0,
        }
    }

    /// The name of a call is bound, if it binds one: it is this word.
    fn bind(&mut self, call: &TraceCall, word: &[u8]) -> Result<(), AllocError>
        requires room { self.old.count < 2 ^ 16 }
        requires known { MayBind (context_of self.old) (bound_by call.now) word.now }
        ensures { OnOk result (context_of self.new ≡ with_bound (context_of self.old) (bound_by call.now) word.now) }
    {
        let Some(number) = bound_by(call) else {
            return Ok(());
        };
        self.bound.insert(name_key(word), number)?;
        self.count = number + 1;
        Ok(())
    }

    /// A pool was made by a line of these words.
    fn make(&mut self, words: &[&[u8]]) -> Result<(), AllocError>
        requires { MayEnter (context_of self.old) (map bytes_in words.now) (Act.Pool 0) }
        ensures { OnOk result (Enters (context_of self.old) (map bytes_in words.now) (Act.Pool 0) (context_of self.new)) }
    {
        let Ok(options) = options_from(words, 2) else {
            unreachable!();
        };
        self.pools.push(options)?;
        Ok(())
    }

    /// What stands before the next line, after a line of these words that does this.
    pub fn enter(&mut self, words: &[&[u8]], act: &Act) -> Result<(), AllocError>
        requires room { self.old.count < 2 ^ 16 }
        requires known { MayEnter (context_of self.old) (map bytes_in words.now) act.now }
        ensures { OnOk result (Enters (context_of self.old) (map bytes_in words.now) act.now (context_of self.new)) }
    {
        match act {
            Act::Threads => self.names = thread_names(&words[1..]),
            Act::Pool { .. } => self.make(words)?,
            Act::Call { call, .. } => self.bind(call, word_in(words, 2))?,
            Act::Begin { call, .. } => self.bind(call, word_in(words, 3))?,
            Act::RawGet { .. }
            | Act::RawGetFail { .. }
            | Act::RawPutOk { .. }
            | Act::RawPutFail { .. }
            | Act::Step { .. }
            | Act::UpTo { .. }
            | Act::Finish { .. }
            | Act::Reset { .. }
            | Act::Destroy { .. } => {}
        }
        Ok(())
    }

    /// The thread of this name.
    pub fn position(&self, name: &[u8]) -> Option<u8>
        ensures { IsPositionOf (context_of self.now).names name.now result }
    {
        for (i, other) in self.names.as_slice().iter().enumerate() {
            if is_same(other.bytes.as_slice(), name) {
                return Some(i as u8);
            }
        }
        None
    }

    /// The number of a name that an earlier line has bound.
    pub fn number_of(&self, name: &[u8]) -> Option<u32>
        requires { IsBoundName name.now }
        ensures { result ≡ (context_of self.now).bound name.now }
    {
        self.bound.get(&name_key(name)).copied()
    }
}
