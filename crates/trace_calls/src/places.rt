//! What the names of a trace stand for while its lines are run, and what its calls ask of a pool. This project's own.
ghost use Rattle.std.specs.Prelude.{◌≡◌, ◌≤◌, ℕ, length, OnOk};
ghost use Rattle.trace_calls.specs.Names.{no_names, with_name, place_of, place_got, request_of, names_after};
ghost use Rattle.trace_calls.specs.Kept.{names_kept};

use pool_types::{Answer, Place, Request};
use std::alloc::{AllocError, Global};
use trace_reader::{TraceCall, What};

/// What each name that was bound stands for, by its number: the place that its call got, also after that object was
/// freed, or null.
#[derive(Drop)]
pub struct Places {
    kept: Vec<Option<Place>>,
}

/// The place that a call got, or null.
fn place_got(answer: Answer) -> Option<Place>
    ensures { result ≡ place_got answer }
{
    match answer {
        Answer::Got { place, .. } => Some(place),
        _ => None,
    }
}

impl Places {
    /// No name is bound: each stands for null.
    pub fn unbound(alloc: Global) -> Self
        ensures { (name : ℕ) → names_kept result name ≡ no_names name }
    {
        Places {
            kept: Vec::new(alloc),
        }
    }

    /// What the name stands for.
    fn place_named(&self, name: u32) -> Option<Place>
        ensures { result ≡ names_kept self.now name }
    {
        self.kept.get(name as usize).copied().unwrap_or(None)
    }

    /// Makes room for so many names. Those that come stand for null.
    fn make_room(&mut self, count: usize) -> Result<(), AllocError>
        ensures room { OnOk result (count ≤ length self.new.kept.items) }
        ensures same { (name : ℕ) → names_kept self.new name ≡ names_kept self.old name }
    {
        while self.kept.len() < count {
            self.kept.push(None)?;
        }
        Ok(())
    }

    /// The name stands for this from now on.
    fn bind(&mut self, name: u32, place: Option<Place>) -> Result<(), AllocError>
        ensures { OnOk result ((other : ℕ) →
            names_kept self.new other ≡ with_name (names_kept self.old) name place other) }
    {
        let name = name as usize;
        self.make_room(name + 1)?;
        self.kept[name] = place;
        Ok(())
    }

    /// The place that a call is asked of, or null.
    fn place_of(&self, what: &What) -> Option<Place>
        ensures { result ≡ place_of (names_kept self.now) what.now }
    {
        match what {
            What::Null => None,
            What::Name(name) => self.place_named(*name),
            What::Place(place) => Some(*place),
        }
    }

    /// What the call asks of the pool.
    pub fn request_of(&self, call: &TraceCall) -> Request
        ensures { result ≡ request_of (names_kept self.now) call.now }
    {
        match call {
            TraceCall::Malloc { size, .. } => Request::Malloc { size: *size },
            TraceCall::Aligned {
                size,
                alignment,
                ..
            } => Request::Aligned {
                size: *size,
                alignment: *alignment,
            },
            TraceCall::Realloc { what, size, .. } => Request::Realloc {
                place: self.place_of(what),
                size: *size,
            },
            TraceCall::AlignedRealloc {
                what,
                size,
                alignment,
                ..
            } => Request::AlignedRealloc {
                place: self.place_of(what),
                size: *size,
                alignment: *alignment,
            },
            TraceCall::Free { what } => Request::Free {
                place: self.place_of(what),
            },
            TraceCall::Msize { what } => Request::Msize {
                place: self.place_of(what),
            },
            TraceCall::Identify { what } => Request::Identify {
                place: self.place_of(what),
            },
            TraceCall::Exit => Request::Exit,
        }
    }

    /// The name that the call binds, if any, stands for what was answered.
    pub fn answered(&mut self, call: &TraceCall, answer: Answer) -> Result<(), AllocError>
        ensures { OnOk result ((name : ℕ) →
            names_kept self.new name ≡ names_after (names_kept self.old) call.now answer name) }
    {
        match call {
            TraceCall::Malloc { name, .. }
            | TraceCall::Aligned { name, .. }
            | TraceCall::Realloc { name, .. }
            | TraceCall::AlignedRealloc { name, .. } => self.bind(*name, place_got(answer)),
            TraceCall::Free { .. }
            | TraceCall::Msize { .. }
            | TraceCall::Identify { .. }
            | TraceCall::Exit => Ok(()),
        }
    }
}
