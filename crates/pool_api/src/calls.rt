//! A whole call of a heap: its turns, to the one that answers.
ghost use Rattle.std.specs.Prelude.{◌≡◌};
ghost use Rattle.pool_api.specs.Heaps.{entry_of, IsHeap, CalledBy};
ghost use Rattle.atomic_driver.specs.Seating.{IsPool};

use crate::pools::{Heap, Pool};
use pool_types::{Answer, InCall, Raw, Request, Turn};
use std::sync::Wait;
use std::thread;

/// Makes a call of the heap, turn by turn, until it is answered; where a turn waits, the thread yields. It is refused
/// exactly where a call is begun and not done. No memory is taken.
pub fn call<R: Raw, W: Wait>(
    rt: &W,
    pool: &Pool<R>,
    heap: &mut Heap<R>,
    request: Request,
) -> Result<Answer, InCall>
    requires pool { IsPool R.out R.faults R.got R.passed pool.now }
    requires heap { IsHeap R.out R.faults R.got R.passed pool.now heap.old }
    ensures heap { IsHeap R.out R.faults R.got R.passed pool.now heap.new }
    ensures called { CalledBy heap.old.local (entry_of heap.old) request result heap.new.local (entry_of heap.new) }
{
    heap.begin(request)?;
    for _ in rt.forever() {
        match heap.act(pool) {
            Turn::Done(answer) => return Ok(answer),
            Turn::Waits(_) => thread::yield_now(),
            Turn::Stepped => {}
            Turn::Idle => {}
        }
    }
    unreachable!()
}
