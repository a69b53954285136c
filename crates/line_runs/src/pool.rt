//! A pool of a trace: its machine, and the call that each seat began last. This project's own.
ghost use Rattle.std.specs.Prelude.{◌≡◌, IfOk, [], slice_set};
ghost use Rattle.pool_types.specs.Policies.{IsAllowed};
ghost use Rattle.line_runs.specs.Pools.{no_calls, call_of, with_call, first_pool, begun_pool};

use pool_types::{InCall, Limits, Policy, Request, ScriptedRaw};
use std::alloc::{AllocError, Global};
use std::marker::Model;
use step_core::PlainMachine;
use trace_reader::TraceCall;

/// A pool of a trace.
#[derive(Drop)]
pub struct TracePool {
    pub(crate) machine: PlainMachine<ScriptedRaw>,
    /// The call that each seat began last, so that its answer binds the name. A seat that began none has `Exit`, which
    /// binds none.
    pub(crate) calls: Vec<TraceCall>,
}

impl Model for TracePool {
    ghost use Rattle.line_runs.specs.Pools.{Pool};

    ghost Value = { Pool };

    ghost view = { λ p. record { machine = p.machine; calls = p.calls.items } };
}

/// Of so many seats, none began a call.
fn no_calls(alloc: Global, seats: u8) -> Result<Vec<TraceCall>, AllocError>
    ensures { IfOk result (λ calls. calls.items ≡ no_calls seats) }
{
    let mut calls = Vec::new(alloc);
    for _ in 0..seats {
        calls.push(TraceCall::Exit)?;
    }
    Ok(calls)
}

/// The call that the seat began last.
fn call_of(calls: &[TraceCall], seat: u8) -> TraceCall
    ensures { result ≡ call_of calls.now seat }
{
    match calls.get(usize::from(seat)) {
        Some(call) => *call,
        None => TraceCall::Exit,
    }
}

/// The seat began this call last.
fn with_call(calls: &mut [TraceCall], seat: u8, call: TraceCall)
    ensures { calls.new ≡ slice_set calls.old seat call }
{
    let index = usize::from(seat);
    if index < calls.len() {
        calls[index] = call;
    }
}

impl TracePool {
    /// A pool without a region, over this callback. The error is a want of memory, or that no pool can be made so, as
    /// `check` judges it.
    #[tactic(auto, unfolding(crate::specs::Pools::first_pool))]
    pub fn make(
        alloc: Global,
        policy: Policy,
        limits: Limits,
        raw: ScriptedRaw,
    ) -> Result<TracePool, AllocError>
        requires { raw.out ≡ [] }
        ensures { IfOk result (λ pool. pool ≡ first_pool policy limits raw) }
    {
        let Ok(machine) = PlainMachine::make(alloc, policy, limits, raw) else {
            return Err(AllocError);
        };
        let calls = no_calls(alloc, limits.seats)?;
        Ok(TracePool { machine, calls })
    }

    /// The call that the seat began last.
    pub(crate) fn call_of(&self, seat: u8) -> TraceCall
        ensures { result ≡ call_of self.now.calls seat }
    {
        call_of(self.calls.as_slice(), seat)
    }

    /// Begins a call of a line, which asks this. `InCall` is the answer exactly where the seat is in a call or the pool
    /// has no such seat.
    pub(crate) fn begin(
        &mut self,
        seat: u8,
        call: &TraceCall,
        request: Request,
    ) -> Result<(), InCall>
        ensures pool { self.new ≡ (begun_pool self.old seat call.now request).0 }
        ensures answer { result ≡ (begun_pool self.old seat call.now request).1 }
    {
        match self.machine.begin(seat, request) {
            Ok(()) => {
                with_call(self.calls.as_mut_slice(), seat, *call);
                Ok(())
            }
            Err(refused) => Err(refused),
        }
    }
}
