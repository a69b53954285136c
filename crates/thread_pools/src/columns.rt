//! The heaps of each pool, and the heaps of each thread. This project's own.
ghost use Rattle.std.specs.Prelude.{◌≡◌, ◌++◌, ◌<◌, length, IfOk, OnOk, option_to_list, ℕ, slice_get};
ghost use Rattle.thread_pools.specs.Columns.{TakesLast, TakesAt, PutsAt};

use pool_api::Heap;
use pool_types::Raw;
use std::alloc::{AllocError, Global};

/// A pool's heaps, by the threads' numbers.
#[derive(Drop)]
pub struct Column<R: Raw> {
    pub heaps: Vec<Heap<R>>,
}

impl<R: Raw> Column<R> {
    /// Takes the last heap, if there is one.
    fn take_last(&mut self) -> Option<Heap<R>>
        ensures { TakesLast self.old.heaps.items result self.new.heaps.items }
    {
        self.heaps.pop()
    }

    /// Puts a heap behind the others, if one is given.
    fn put(&mut self, heap: Option<Heap<R>>) -> Result<(), AllocError>
        ensures { OnOk result (self.new.heaps.items ≡ self.old.heaps.items ++ option_to_list heap) }
    {
        if let Some(heap) = heap {
            self.heaps.push(heap)?;
        }
        Ok(())
    }
}

/// Takes the last heap of each pool, if it has one.
pub fn take_row<R: Raw>(
    alloc: Global,
    columns: &mut [Column<R>],
) -> Result<Vec<Option<Heap<R>>>, AllocError>
    ensures count { IfOk result (λ row. length row.items ≡ length columns.old) }
    ensures len { length columns.new ≡ length columns.old }
    ensures takes { IfOk result (λ row. (pool : ℕ) →
        TakesAt (slice_get columns.old pool) (slice_get row.items pool) (slice_get columns.new pool)) }
{
    let mut row = Vec::new(alloc);
    for pool in 0..columns.len() {
        row.push(columns[pool].take_last())?;
    }
    Ok(row)
}

/// Puts each heap behind the others of its pool.
pub fn put_row<R: Raw>(
    columns: &mut [Column<R>],
    mut row: Vec<Option<Heap<R>>>,
) -> Result<(), AllocError>
    requires { length row.items ≡ length columns.old }
    ensures len { length columns.new ≡ length columns.old }
    ensures puts { OnOk result ((pool : ℕ) →
        PutsAt (slice_get columns.old pool) (slice_get row.items pool) (slice_get columns.new pool)) }
{
    while let Some(heap) = row.pop() {
        let pool = row.len();
        columns[pool].put(heap)?;
    }
    Ok(())
}
