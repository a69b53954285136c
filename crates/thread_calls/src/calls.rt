//! A line's call: whose it is, what it asks, and what it binds.
ghost use Rattle.std.specs.Prelude.{◌≡◌, ◌<◌};
ghost use Rattle.trace_reader.specs.Acts.{bound_by};
ghost use Rattle.thread_calls.specs.Calls.{own_call, name_asked, name_in, place_with, request_with, word_of};

use crate::words::{NULL_WORD, place_of_word, word_of_place};
use pool_types::{Answer, Place, Request};
use trace_reader::{Act, TraceCall, What};

/// What a call of a line came to: its pool was not made, or its heap's answer.
#[derive(Clone, Copy, Debug, PartialEq, Eq)]
pub enum Said {
    Gone,
    Answered(Answer),
}

/// A call on the pool of a number.
#[derive(Clone, Copy, Debug, PartialEq, Eq)]
pub struct OwnCall {
    pub pool: u16,
    pub call: TraceCall,
}

/// The call that a line makes whole, where it is this thread's.
pub fn own_call(thread: u8, act: &Act) -> Option<OwnCall>
    ensures { result ≡ own_call thread act.now }
{
    match act {
        Act::Call {
            thread: named,
            pool,
            call,
        } if *named == thread => Some(OwnCall {
            pool: *pool,
            call: *call,
        }),
        _ => None,
    }
}

/// The number of the name that stands there, if one does.
fn name_in(what: What) -> Option<u32>
    ensures { result ≡ name_in what }
{
    match what {
        What::Name(name) => Some(name),
        What::Null | What::Place(_) => None,
    }
}

/// The number of the name that the call is asked of, if any.
pub fn name_asked(call: &TraceCall) -> Option<u32>
    ensures { result ≡ name_asked call.now }
{
    match call {
        TraceCall::Realloc { what, .. }
        | TraceCall::AlignedRealloc { what, .. }
        | TraceCall::Free { what }
        | TraceCall::Msize { what }
        | TraceCall::Identify { what } => name_in(*what),
        TraceCall::Malloc { .. } | TraceCall::Aligned { .. } | TraceCall::Exit => None,
    }
}

/// The number of the name that the call binds, if any.
pub fn name_bound(call: &TraceCall) -> Option<u32>
    ensures { result ≡ bound_by call.now }
{
    match call {
        TraceCall::Malloc { name, .. }
        | TraceCall::Aligned { name, .. }
        | TraceCall::Realloc { name, .. }
        | TraceCall::AlignedRealloc { name, .. } => Some(*name),
        TraceCall::Free { .. }
        | TraceCall::Msize { .. }
        | TraceCall::Identify { .. }
        | TraceCall::Exit => None,
    }
}

/// The place that a call is asked of, or null, where the name that stands there has this word.
fn place_with(word: u64, what: What) -> Option<Place>
    ensures { result ≡ place_with word what }
{
    match what {
        What::Null => None,
        What::Name(_) => place_of_word(word),
        What::Place(place) => Some(place),
    }
}

/// What the call asks of the pool, where the name that it is asked of has this word.
pub fn request_with(word: u64, call: &TraceCall) -> Request
    ensures { result ≡ request_with word call.now }
{
    match *call {
        TraceCall::Malloc { size, .. } => Request::Malloc { size },
        TraceCall::Aligned {
            size,
            alignment,
            ..
        } => Request::Aligned { size, alignment },
        TraceCall::Realloc { what, size, .. } => Request::Realloc {
            place: place_with(word, what),
            size,
        },
        TraceCall::AlignedRealloc {
            what,
            size,
            alignment,
            ..
        } => Request::AlignedRealloc {
            place: place_with(word, what),
            size,
            alignment,
        },
        TraceCall::Free { what } => Request::Free {
            place: place_with(word, what),
        },
        TraceCall::Msize { what } => Request::Msize {
            place: place_with(word, what),
        },
        TraceCall::Identify { what } => Request::Identify {
            place: place_with(word, what),
        },
        TraceCall::Exit => Request::Exit,
    }
}

/// The word of what a call came to: that of the place that it got, or that of null.
pub fn word_of(said: Said) -> u64
    ensures word { result ≡ word_of said }
    ensures set { 0 < result }
{
    match said {
        Said::Answered(Answer::Got { place, .. }) => word_of_place(place),
        _ => NULL_WORD,
    }
}
