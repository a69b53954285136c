//! The whole trace.
ghost use Rattle.std.specs.Prelude.{◌≡◌, ◌++◌, ◌+◌, ◌<◌, ◌-◌, ◌^◌, OnOk, IfOk, length, codes};
ghost use Rattle.trace_gen.specs.Generated.{after_calls, begun, ended, exit_lines, free_lines, generated, made_of};
ghost use Rattle.trace_gen.specs.Generated.{thread_words};

use crate::lines::{add_exit, add_free, add_thread};
use crate::making::Making;
use std::alloc::{AllocError, Global};

/// Adds the line that names the threads, and the pool's line.
fn add_head(text: &mut Vec<u8>, threads: u8) -> Result<(), AllocError>
    ensures { OnOk result (text.new.items
        ≡ text.old.items ++ (codes "threads" ++ thread_words threads ++ codes "\npool P0\n")) }
{
    text.extend_from_slice(b"threads")?;
    for thread in 0..threads {
        add_thread(text, thread)?;
    }
    text.extend_from_slice(b"\npool P0\n")
}

/// Before the first call.
fn begun(alloc: Global, seed: u64, threads: u8) -> Result<Making, AllocError>
    ensures { IfOk result (λ making. made_of making ≡ begun seed threads) }
{
    let mut text = Vec::new(alloc);
    add_head(&mut text, threads)?;
    Ok(Making {
        number: seed,
        live: Vec::new(alloc),
        next: 0,
        text,
    })
}

/// After so many calls.
fn after_calls(alloc: Global, seed: u64, threads: u8, calls: u32) -> Result<Making, AllocError>
    requires some { 0 < threads }
    ensures { IfOk result (λ making. made_of making ≡ after_calls seed threads calls) }
{
    let mut making = begun(alloc, seed, threads)?;
    for _ in 0..calls {
        making.call(threads)?;
    }
    Ok(making)
}

/// The first thread frees what is left.
fn add_frees(text: &mut Vec<u8>, live: &[u32]) -> Result<(), AllocError>
    ensures { OnOk result (text.new.items ≡ text.old.items ++ free_lines live.now (length live.now)) }
{
    for name in live {
        add_free(text, 0, *name)?;
    }
    Ok(())
}

/// Each thread leaves.
fn add_exits(text: &mut Vec<u8>, threads: u8) -> Result<(), AllocError>
    ensures { OnOk result (text.new.items ≡ text.old.items ++ exit_lines threads) }
{
    for thread in 0..threads {
        add_exit(text, thread)?;
    }
    Ok(())
}

/// The trace that a seed, a number of threads and a number of calls make: mallocs and frees by threads that draws pick,
/// and at its end a free of each object that is held, by the first thread, and an exit of each thread.
#[tactic(auto, unfolding(crate::specs::Generated::generated))]
pub fn generated(alloc: Global, seed: u64, threads: u8, calls: u32) -> Result<Vec<u8>, AllocError>
    requires some { 0 < threads }
    ensures { IfOk result (λ text. text.items ≡ generated seed threads calls) }
{
    let Making { live, mut text, .. } = after_calls(alloc, seed, threads, calls)?;
    add_frees(&mut text, live.as_slice())?;
    add_exits(&mut text, threads)?;
    Ok(text)
}
