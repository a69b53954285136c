//! The calls of each case.
ghost use Rattle.thread_bench.specs.Heaps.{AreHeapsAt};

use crate::seats::{Seat, hand_on};
use pool_api::{Heap, Table, create, part};
use pool_types::{CreateError, Limits, Policy, Raw, ScriptedRaw};
use std::alloc::{AllocError, Global};
use std::sync::Wait;
use std::thread;
use std::thread::Threads;

/// A growing pool.
const POLICY: Policy = Policy {
    gets: true,
    frees: true,
    version: 1,
    granularity: 0,
    fixed: false,
    keep: false,
    reserved: 0,
};

/// Which calls are made.
#[derive(Clone, Copy)]
pub enum Case {
    /// Each thread has 50 objects of 8 to 939 bytes granted, and frees them.
    Own,
    /// Each thread has 4000 objects of 64 bytes granted, and then each frees those of another one.
    Strangers,
    /// Each thread has large objects of four sizes granted, and frees them.
    Large,
}

impl Case {
    /// The case of this name.
    pub fn named(name: &str) -> Option<Case> {
        match name {
            "own" => Some(Case::Own),
            "strangers" => Some(Case::Strangers),
            "large" => Some(Case::Large),
            _ => None,
        }
    }

    /// A thread asks for the objects of a round.
    fn ask<R: Raw, W: Wait>(self, rt: &W, seat: &mut Seat<'_, R>) {
        match self {
            Case::Own => seat.ask(rt, 50, 8, 19),
            Case::Strangers => seat.ask(rt, 4000, 64, 0),
            Case::Large => seat.ask(rt, 4, 20_000, 20_000),
        }
    }
}

/// Each thread makes the calls of so many rounds on its own.
fn run_apart<R: Raw + Send + Sync, W: Threads + Wait + Sync>(
    rt: &W,
    case: Case,
    rounds: u32,
    seats: &mut [Seat<'_, R>],
) {
    if seats.is_empty() {
        return;
    }
    let threads = seats.len();
    thread::for_each_mut(
        rt,
        seats,
        threads,
        &|_, seat| {
            for _ in 0..rounds {
                case.ask(rt, seat);
                seat.free_all(rt);
            }
        },
    );
}

/// All threads ask for objects, and then each frees those of another one, so many times over.
fn run_across<R: Raw + Send + Sync, W: Threads + Wait + Sync>(
    rt: &W,
    case: Case,
    rounds: u32,
    seats: &mut [Seat<'_, R>],
) {
    if seats.is_empty() {
        return;
    }
    let threads = seats.len();
    for _ in 0..rounds {
        thread::for_each_mut(rt, seats, threads, &|_, seat| case.ask(rt, seat));
        hand_on(seats);
        thread::for_each_mut(rt, seats, threads, &|_, seat| seat.free_all(rt));
    }
}

/// A seat for each heap.
fn seats_of<'a, R: Raw>(
    alloc: Global,
    table: &'a Table<R>,
    mut heaps: Vec<Heap<R>>,
) -> Result<Vec<Seat<'a, R>>, AllocError>
    requires { AreHeapsAt R.out R.faults R.got R.passed table.now heaps.items }
{
    let mut seats = Vec::new(alloc);
    while let Some(heap) = heaps.pop() {
        seats.push(Seat::of(alloc, table, heap, 4000)?)?;
    }
    Ok(seats)
}

/// Makes the calls of a case so many times over by each of so many threads, and says how many they were. None is the
/// answer where no pool has so many.
pub fn run_case<W: Threads + Wait + Sync>(
    rt: &W,
    alloc: Global,
    case: Case,
    threads: u8,
    rounds: u32,
) -> Result<Option<u64>, AllocError> {
    let limits = Limits {
        pool: 0,
        seats: threads,
        span: 1024,
        region: 1_048_576,
    };
    let raw = ScriptedRaw::of(Vec::new(alloc), Vec::new(alloc));
    let (pool, heaps) = match create(alloc, POLICY, limits, raw) {
        Ok(made) => made,
        Err(CreateError::NoMemory) => return Err(AllocError),
        Err(_) => return Ok(None),
    };
    let (table, _rest) = part(pool);
    let mut seats = seats_of(alloc, &table, heaps)?;
    match case {
        Case::Own | Case::Large => run_apart(rt, case, rounds, seats.as_mut_slice()),
        Case::Strangers => run_across(rt, case, rounds, seats.as_mut_slice()),
    }
    let mut calls = 0u64;
    for seat in seats.iter() {
        calls = calls.saturating_add(seat.calls());
    }
    Ok(Some(calls))
}
