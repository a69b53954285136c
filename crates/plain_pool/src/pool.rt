//! A fixed pool.
use crate::arrays::PoolArrays;
use part_model::Totals;
use pool_types::{Answer, Leak, Request};
use std::alloc::{AllocError, Global};
use std::marker::Model;

/// A fixed pool of one region, for one thread. Contracts see its arrays, which stand for good lists.
#[derive(Drop)]
pub struct Pool {
    arrays: PoolArrays,
}

impl Model for Pool {
    ghost use Rattle.plain_lists.specs.Lists.{Lists};
    ghost use Rattle.plain_pool.specs.declared.arrays.PoolArrays.{PoolArrays};
    ghost use Rattle.plain_pool.specs.Pool.{Stands};

    ghost Value = { PoolArrays };

    ghost view = { λ pool. pool.arrays };

    ghost invariant = { λ pool. (lists : Lists) × Stands pool.arrays lists };
}

impl Pool {
    ghost use Rattle.std.specs.Prelude.{◌≡◌, ◌<◌, ◌-◌, ◌^◌, IfOk};
    ghost use Rattle.plain_lists.specs.Lists.{Lists, no_lists};
    ghost use Rattle.plain_lists.specs.Held.{totals_at, leaks_at};
    ghost use Rattle.plain_lists.specs.Whole.{IsServed, whole};
    ghost use Rattle.plain_pool.specs.Pool.{Stands};

    /// A pool of which nothing was asked. All memory of the pool is taken here, and the one error is want of it.
    pub fn new(alloc: Global) -> Result<Self, AllocError>
        ensures { IfOk result (λ pool. Stands pool no_lists) }
    {
        Ok(Pool {
            arrays: PoolArrays::new(alloc)?,
        })
    }

    /// How many objects were granted.
    pub fn granted(&self) -> u64
        ensures lists { (lists : Lists) → Stands self.now lists → result ≡ lists.granted }
        ensures numbers { result ≡ self.now.granted }
    {
        self.arrays.granted()
    }

    /// How many bytes of the region each kind of holder has.
    pub fn totals(&self) -> Totals
        ensures { (lists : Lists) → Stands self.now lists → result ≡ totals_at lists }
    {
        self.arrays.totals()
    }

    /// All objects that are held, by offset. The one error is want of memory for the list.
    pub fn leaks(&self, alloc: Global) -> Result<Vec<Leak>, AllocError>
        ensures { IfOk result (λ leaks. (lists : Lists) → Stands self.now lists → leaks.items ≡ leaks_at lists) }
    {
        self.arrays.leaks(alloc)
    }

    /// A whole call. It takes no memory, and does to the lists what the definition of whole calls says.
    pub fn call(&mut self, request: Request) -> Answer
        requires served { IsServed request }
        requires numbers { self.old.granted < 2 ^ 55 - 1 }
        ensures lists { (lists : Lists) → Stands self.old lists → Stands self.new (whole lists request).lists }
        ensures answer { (lists : Lists) → Stands self.old lists → result ≡ (whole lists request).answer }
    {
        self.arrays.call(request)
    }
}
