//! A list of bounded length, whose room is taken when it is made.

ghost use Rattle.std.specs.Prelude.{◌≡◌, [], length, slice_get, IfOk};
ghost use Rattle.heap_slabs.specs.Rolls.{empty_roll, after_push, newest_of, without_newest};

use std::alloc::{AllocError, Global};
use std::marker::Model;

/// A list with room for so many items. Contracts see the items, the oldest first, and the room.
#[derive(Drop)]
pub struct Roll<T> {
    items: Vec<T, Global>,
    room: usize,
}

impl<T> Model for Roll<T> {
    ghost use Rattle.std.specs.Prelude.{◌≤◌, vec_capacity};
    ghost use Rattle.heap_slabs.specs.Rolls.{Rolled, rolled_code};

    ghost Value = { Rolled T };

    ghost coded = { rolled_code T.code };

    ghost view = { λ r. record { items = r.items.items; room = r.room } };

    ghost invariant = { λ r. r.room ≤ vec_capacity r.items };
}

impl<T: Copy + Drop> Roll<T> {
    /// An empty list with this room. The error is a want of memory.
    pub fn make(alloc: Global, room: usize) -> Result<Roll<T>, AllocError>
        ensures { IfOk result (λ made. made ≡ empty_roll room) }
    {
        Ok(Roll {
            items: Vec::with_capacity(alloc, room)?,
            room,
        })
    }

    /// How many items there are.
    pub fn len(&self) -> usize
        ensures { result ≡ length self.now.items }
    {
        self.items.len()
    }

    /// The item at this place, from 0 for the oldest.
    pub fn get(&self, place: usize) -> Option<T>
        ensures { result ≡ slice_get self.now.items place }
    {
        self.items.as_slice().get(place).copied()
    }

    /// The newest item.
    pub fn newest(&self) -> Option<T>
        ensures { result ≡ newest_of self.now }
    {
        let below = self.items.len().saturating_sub(1);
        self.items.as_slice().get(below).copied()
    }

    /// Adds an item, as the newest. A full list stays as it is.
    pub fn push(&mut self, item: T)
        ensures { self.new ≡ after_push self.old item }
    {
        if self.items.len() < self.room {
            let _ = self.items.push(item);
        }
    }

    /// Takes the newest item.
    pub fn pop(&mut self) -> Option<T>
        ensures item { result ≡ newest_of self.old }
        ensures rest { self.new ≡ without_newest self.old }
    {
        let newest = self.newest();
        self.items.truncate(self.items.len().saturating_sub(1));
        newest
    }

    /// Takes all items.
    pub fn clear(&mut self)
        ensures { self.new ≡ record self.old { items = [] } }
    {
        self.items.clear();
    }
}
