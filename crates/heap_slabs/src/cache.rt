//! The cache of slabs of which no object is held.

ghost use Rattle.std.specs.Prelude.{◌≡◌, ℕ, length, slice_get, IfOk};
ghost use Rattle.heap_slabs.specs.Rolls.{after_push, newest_of, oldest_of, without_newest, without_oldest};
ghost use Rattle.heap_slabs.specs.Cached.{empty_cache, surplus_of, low_mark, high_mark};

use circular_buffer::HeapCircularBuffer;
use std::alloc::{AllocError, Global};
use std::marker::Model;

/// How many slabs stay where more than `HIGH_MARK` were cached.
pub const LOW_MARK: u64 = 8;

/// The most cached slabs of which none has to go.
pub const HIGH_MARK: u64 = 32;

/// A cache of empty slabs, by their first granules. Contracts see them, the oldest first, and how many there may be.
#[derive(Drop)]
pub struct SlabCache {
    ring: HeapCircularBuffer<u64>,
}

impl Model for SlabCache {
    ghost use Rattle.std.specs.Prelude.{ℕ};
    ghost use Rattle.heap_slabs.specs.Rolls.{Rolled};

    ghost Value = { Rolled ℕ };

    ghost view = { λ cached. record { items = cached.ring.items; room = cached.ring.capacity } };
}

/// The code's numbers are those of the definitions.
pub fn marks_are_the_definitions()
    ensures low { LOW_MARK ≡ low_mark }
    ensures high { HIGH_MARK ≡ high_mark }
{}

impl SlabCache {
    /// An empty cache. The error is a want of memory.
    pub fn make(alloc: Global) -> Result<SlabCache, AllocError>
        ensures { IfOk result (λ made. made ≡ empty_cache) }
    {
        Ok(SlabCache {
            ring: HeapCircularBuffer::with_capacity(alloc, HIGH_MARK as usize + 1)?,
        })
    }

    /// How many slabs are cached.
    pub fn len(&self) -> usize
        ensures { result ≡ length self.now.items }
    {
        self.ring.len()
    }

    /// The newest cached slab.
    pub fn newest(&self) -> Option<u64>
        ensures { result ≡ newest_of self.now }
    {
        self.ring.back().copied()
    }

    /// The oldest cached slab.
    pub fn oldest(&self) -> Option<u64>
        ensures { result ≡ oldest_of self.now }
    {
        self.ring.front().copied()
    }

    /// Caches a slab, as the newest. A full cache stays as it is.
    pub fn shelve(&mut self, slab: u64)
        ensures { self.new ≡ after_push self.old slab }
    {
        let _ = self.ring.try_push_back(slab);
    }

    /// Takes the newest slab.
    pub fn unshelve_newest(&mut self) -> Option<u64>
        ensures slab { result ≡ newest_of self.old }
        ensures rest { self.new ≡ without_newest self.old }
    {
        self.ring.pop_back()
    }

    /// Takes the oldest slab.
    pub fn unshelve_oldest(&mut self) -> Option<u64>
        ensures slab { result ≡ oldest_of self.old }
        ensures rest { self.new ≡ without_oldest self.old }
    {
        self.ring.pop_front()
    }

    /// How many of the oldest slabs have to go to the backend.
    pub fn surplus(&self) -> u64
        ensures { result ≡ surplus_of self.now }
    {
        let count = self.ring.len() as u64;
        if HIGH_MARK < count {
            count.saturating_sub(LOW_MARK)
        } else {
            0
        }
    }
}
