//! What threads share of a pool. This project's own.
ghost use Rattle.std.specs.Prelude.{◌≡◌};
ghost use Rattle.pool_api.specs.Heaps.{entry_of, CalledBy};
ghost use Rattle.pool_api.specs.Tables.{IsHeapAt, IsRest, stand_of};
ghost use Rattle.atomic_driver.specs.Seating.{IsPool};

use crate::pools::{Heap, Pool};
use atomic_driver::{Place, Plan, Ruled, Shared, Slot, View};
use atomic_table::Table as Words;
use pool_types::{Answer, InCall, Raw, Request, Turn};
use pool_words::Key;
use regions::Office;
use std::alloc::Global;
use std::marker::Model;
use std::sync::Wait;
use std::thread;

/// A pool's table. Threads may share it, which they may not a pool: that has a place at the table, and a place is one
/// thread's at a time.
#[derive(Drop)]
pub struct Table<R: Raw> {
    board: Words<Slot<R>, View<Office<R>>, Plan, Ruled, Global>,
}

impl<R: Raw> Model for Table<R> {
    ghost use Rattle.pool_api.specs.Tables.{Stand};

    ghost Value = { Stand };

    ghost view = { λ t. record { table = t.board.shared.table_id; plan = t.board.shared.key } };
}

/// What is left of a pool whose table is shared.
#[derive(Drop)]
pub struct Rest<R: Raw> {
    pub spare: Place<R>,
    pub plan: Plan,
    pub key: Key,
}

/// Parts a pool from its table.
pub fn part<R: Raw>(pool: Pool<R>) -> (Table<R>, Rest<R>)
    ensures table { result.0 ≡ stand_of pool }
    ensures rest { (result.1.spare ≡ pool.spare) × (result.1.plan ≡ pool.plan) × (result.1.key ≡ pool.key) }
    ensures fits { IsPool R.out R.faults R.got R.passed pool → IsRest result.0 result.1 }
{
    let Shared {
        board,
        spare,
        plan,
        key,
    } = pool;
    (Table { board }, Rest { spare, plan, key })
}

/// Makes the pool again of its table and of what was left of it.
pub fn unite<R: Raw>(table: Table<R>, rest: Rest<R>) -> Pool<R>
    ensures table { stand_of result ≡ table }
    ensures rest { (result.spare ≡ rest.spare) × (result.plan ≡ rest.plan) × (result.key ≡ rest.key) }
    ensures pool { IsRest table rest → IsPool R.out R.faults R.got R.passed result }
{
    let Table { board } = table;
    let Rest { spare, plan, key } = rest;
    Shared {
        board,
        spare,
        plan,
        key,
    }
}

/// Makes a call of a heap of the table's pool, turn by turn, until it is answered, as `call` does.
pub fn call_at<R: Raw, W: Wait>(
    rt: &W,
    table: &Table<R>,
    heap: &mut Heap<R>,
    request: Request,
) -> Result<Answer, InCall>
    requires heap { IsHeapAt R.out R.faults R.got R.passed table.now heap.old }
    ensures heap { IsHeapAt R.out R.faults R.got R.passed table.now heap.new }
    ensures called { CalledBy heap.old.local (entry_of heap.old) request result heap.new.local (entry_of heap.new) }
{
    heap.begin(request)?;
    for _ in rt.forever() {
        match heap.turn_at(&table.board.shared) {
            Turn::Done(answer) => return Ok(answer),
            Turn::Waits(_) => thread::yield_now(),
            Turn::Stepped => {}
            Turn::Idle => {}
        }
    }
    unreachable!()
}
