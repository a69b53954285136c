//! A thread's heap, and the objects that it is to free.
ghost use Rattle.pool_api.specs.Tables.{IsHeapAt};

use pool_api::{Heap, Table, call_at};
use pool_types::{Answer, Place, Raw, Request};
use std::alloc::{AllocError, Global};
use std::marker::Model;
use std::mem;
use std::sync::Wait;

/// A heap of a pool, the objects that its thread is to free, and how many calls it made.
#[derive(Drop)]
pub struct Seat<'a, R: Raw> {
    table: &'a Table<R>,
    heap: Heap<R>,
    held: Vec<Place>,
    calls: u64,
}

impl<'a, R: Raw> Model for Seat<'a, R> {
    ghost use Rattle.std.specs.Prelude.{ℕ};
    ghost use Rattle.pool_api.specs.Tables.{IsHeapAt};

    ghost Value = { ℕ };

    ghost view = { λ s. s.calls };

    ghost invariant = { λ s. IsHeapAt R.out R.faults R.got R.passed s.table.now s.heap };
}

impl<'a, R: Raw> Seat<'a, R> {
    /// A heap that made no call yet, with room for so many objects.
    pub fn of(
        alloc: Global,
        table: &'a Table<R>,
        heap: Heap<R>,
        room: usize,
    ) -> Result<Seat<'a, R>, AllocError>
        requires { IsHeapAt R.out R.faults R.got R.passed table.now heap }
    {
        Ok(Seat {
            table,
            heap,
            held: Vec::with_capacity(alloc, room)?,
            calls: 0,
        })
    }

    /// How many calls it made.
    pub fn calls(&self) -> u64 {
        self.calls
    }

    /// Makes a call.
    fn call<W: Wait>(&mut self, rt: &W, request: Request) -> Option<Answer> {
        self.calls = self.calls.saturating_add(1);
        call_at(rt, self.table, &mut self.heap, request).ok()
    }

    /// Asks for an object.
    fn malloc<W: Wait>(&mut self, rt: &W, size: u64) {
        if let Some(Answer::Got { place, .. }) = self.call(rt, Request::Malloc { size }) {
            let _kept = self.held.push(place);
        }
    }

    /// Asks for objects, each by so many bytes larger than the one before.
    pub fn ask<W: Wait>(&mut self, rt: &W, count: u32, first: u64, more: u64) {
        let mut size = first;
        for _ in 0..count {
            self.malloc(rt, size);
            size = size.saturating_add(more);
        }
    }

    /// Frees all objects that it is to free.
    pub fn free_all<W: Wait>(&mut self, rt: &W) {
        for at in 0..self.held.len() {
            if let Some(place) = self.held.get(at).copied() {
                let place = Some(place);
                let _answer = self.call(rt, Request::Free { place });
            }
        }
        self.held.clear();
    }
}

/// Each seat is to free what the one behind it was to, and the last what the first was to.
pub fn hand_on<R: Raw>(seats: &mut [Seat<'_, R>]) {
    for at in 1..seats.len() {
        let (before, from) = seats.split_at_mut(at);
        if let Some(last) = before.last_mut() {
            if let Some(next) = from.first_mut() {
                mem::swap(&mut last.held, &mut next.held);
            }
        }
    }
}
