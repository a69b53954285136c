//! A request to the heap of a pool. This project's own.
ghost use Rattle.std.specs.Prelude.{◌≡◌, length};
ghost use Rattle.pool_api.specs.Heaps.{entry_of};
ghost use Rattle.thread_lines.specs.Asking.{IsAnswered, AsksSlot};
ghost use Rattle.thread_lines.specs.Heaps.{AreHeaps, FitsIn, IsRested, heaps_in};
ghost use Rattle.thread_lines.specs.Telling.{Serves};

use pool_api::{Heap, Table, call_at};
use pool_types::{InCall, Raw, Request};
use std::sync::Wait;
use thread_calls::Said;

/// The heap's answer. It is in no call.
fn answer_of<R: Raw, W: Wait>(
    rt: &W,
    thread: u8,
    pool: &Table<R>,
    heap: &mut Heap<R>,
    request: Request,
) -> Said
    requires heap { IsRested R.out R.faults R.got R.passed pool.now thread heap.old }
    ensures heap { IsRested R.out R.faults R.got R.passed pool.now thread heap.new }
    ensures said { IsAnswered heap.old.local (entry_of heap.old) request result heap.new.local (entry_of heap.new) }
{
    let _thread = thread;
    match call_at(rt, pool, heap, request) {
        Ok(answer) => Said::Answered(answer),
        Err(InCall { .. }) => unreachable!(),
    }
}

/// The same, where the pool was made; else that it was not.
fn ask_slot<R: Raw, W: Wait>(
    rt: &W,
    thread: u8,
    pool: &Option<Table<R>>,
    heap: &mut Option<Heap<R>>,
    request: Request,
) -> Said
    requires pool { FitsIn R.out R.faults R.got R.passed thread pool.now heap.old }
    ensures pool { FitsIn R.out R.faults R.got R.passed thread pool.now heap.new }
    ensures said { AsksSlot heap.old request result heap.new }
{
    let Some(pool) = pool else {
        return Said::Gone;
    };
    match heap {
        Some(heap) => answer_of(rt, thread, pool, heap, request),
        None => Said::Gone,
    }
}

/// The answer of the thread's heap of that pool, or that the pool was not made.
pub(crate) fn ask<R: Raw, W: Wait>(
    rt: &W,
    thread: u8,
    pools: &[Option<Table<R>>],
    heaps: &mut [Option<Heap<R>>],
    pool: u16,
    request: Request,
) -> Said
    requires heaps { AreHeaps R.out R.faults R.got R.passed pools.now thread heaps.old }
    ensures heaps { AreHeaps R.out R.faults R.got R.passed pools.now thread heaps.new }
    ensures serves { Serves (heaps_in heaps.old) pool request result (heaps_in heaps.new) }
    ensures len { length heaps.new ≡ length heaps.old }
{
    let index = usize::from(pool);
    if pools.len() <= index {
        return Said::Gone;
    }
    if heaps.len() <= index {
        return Said::Gone;
    }
    ask_slot(rt, thread, &pools[index], &mut heaps[index], request)
}
