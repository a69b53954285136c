//! What one seat's heap keeps by itself.

ghost use Rattle.std.specs.Prelude.{◌≡◌, IfOk};
ghost use Rattle.heap_slabs.specs.Heaps.{empty_heap, next_to_leave};

use crate::cache::SlabCache;
use crate::records::HeapSlab;
use crate::roll::Roll;
use crate::slabs::{Slabs, Wanted};
use std::alloc::{AllocError, Global};

/// What a heap (a thread heap, or thread cache) keeps.
#[derive(Drop)]
pub struct Heap {
    /// The slabs that it keeps.
    pub slabs: Slabs,

    /// The slabs of which no object is held, kept for the next use.
    pub cached: SlabCache,

    /// The orphans that it has to push back.
    pub spares: Roll<u64>,
}

/// What a heap gives up next when it leaves.
#[derive(Clone, Copy)]
pub enum Leaving {
    /// The newest cached slab, which goes to the backend.
    Cached(u64),

    /// A slab of which no object is held, which goes to the backend.
    Unused(HeapSlab),

    /// A slab with objects that are held, which becomes an orphan.
    Held(HeapSlab),

    /// Nothing is left.
    Nothing,
}

impl Heap {
    /// A heap without slabs, of a pool with so many granules. The error is a want of memory.
    pub fn make(alloc: Global, granules: u32) -> Result<Heap, AllocError>
        ensures { IfOk result (λ made. made ≡ empty_heap granules) }
    {
        Ok(Heap {
            slabs: Slabs::make(alloc, granules)?,
            cached: SlabCache::make(alloc)?,
            spares: Roll::make(alloc, (granules as usize + 1) / 2)?,
        })
    }

    /// What the heap gives up next when it leaves.
    pub fn next_to_leave(&self) -> Leaving
        ensures { result ≡ next_to_leave self.now }
    {
        if let Some(slab) = self.cached.newest() {
            return Leaving::Cached(slab);
        }
        match self.slabs.first_from(Wanted::Any, 0) {
            Some(kept) => {
                if kept.is_unused() {
                    Leaving::Unused(kept)
                } else {
                    Leaving::Held(kept)
                }
            }
            None => Leaving::Nothing,
        }
    }
}
