//! A heap's turns, while no other heap of its pool steps.
ghost use Rattle.std.specs.Prelude.{◌≡◌, []};

use pool_api::{Heap, Pool, create};
use pool_types::{Answer, InCall, Limits, Place, Policy, Raw, Request, ScriptedRaw, Turn};
use std::alloc::Global;
use std::marker::Model;
use std::process::Abort;
use std::test::Fail;

/// Both callbacks, and no option.
const POLICY: Policy = Policy {
    gets: true,
    frees: true,
    version: 1,
    granularity: 0,
    fixed: false,
    keep: false,
    reserved: 0,
};

/// Two seats, and regions of sixteen granules.
const LIMITS: Limits = Limits {
    pool: 0,
    seats: 2,
    span: 64,
    region: 131072,
};

/// More turns than a call here takes.
const MOST_TURNS: u32 = 20000;

/// A pool, and the last of its heaps.
#[derive(Drop)]
struct Bench<R: Raw> {
    pool: Pool<R>,
    heap: Heap<R>,
}

impl<R: Raw> Model for Bench<R> {
    ghost use Rattle.std.specs.Prelude.{ℕ};
    ghost use Rattle.atomic_driver.specs.Seating.{IsPool};
    ghost use Rattle.pool_api.specs.Heaps.{IsHeap};

    ghost Value = { ℕ };

    ghost view = { λ _. 0 };

    ghost invariant = { λ b. IsPool R.out R.faults R.got R.passed b.pool
        × IsHeap R.out R.faults R.got R.passed b.pool b.heap };
}

impl<R: Raw> Bench<R> {
    /// A new pool over this callback.
    fn make(alloc: Global, raw: R) -> Option<Bench<R>>
        requires { R.out raw ≡ [] }
    {
        let Ok((pool, mut heaps)) = create(alloc, POLICY, LIMITS, raw) else {
            return None;
        };
        let Some(heap) = heaps.pop() else {
            return None;
        };
        Some(Bench { pool, heap })
    }

    /// The heap begins a call.
    fn begin(&mut self, request: Request) -> Result<(), InCall> {
        self.heap.begin(request)
    }

    /// One turn of the heap.
    fn turn(&mut self) -> Turn {
        self.heap.act(&self.pool)
    }
}

/// What a call answers, of which no turn may wait.
fn stepped(bench: &mut Bench<ScriptedRaw>, request: Request) -> Result<Answer, Fail> {
    if bench.begin(request).is_err() {
        return Err(Fail::from("a call is not begun"));
    }
    for _ in 0..MOST_TURNS {
        match bench.turn() {
            Turn::Done(answer) => return Ok(answer),
            Turn::Waits(_) => return Err(Fail::from("a turn waits")),
            Turn::Stepped => {}
            Turn::Idle => return Err(Fail::from("a call is lost")),
        }
    }
    Err(Fail::from("a call has no end"))
}

/// Where the object is that a call got.
fn place_of(answer: Answer) -> Result<Place, Fail> {
    match answer {
        Answer::Got { place, .. } => Ok(place),
        _ => Err(Fail::from("no object is got")),
    }
}

/// Of two heaps one alone steps: no turn of it waits, of small objects and large ones, in a realloc and as it leaves.
#[test]
fn a_lone_heap_never_waits(rt: HostRuntime) -> Result<(), Fail> {
    let alloc = rt.alloc();
    let raw = ScriptedRaw::of(Vec::new(alloc), Vec::new(alloc));
    let Some(mut bench) = Bench::make(alloc, raw) else {
        return Err(Fail::from("a pool is refused"));
    };
    for (size, more) in [
        (8, 16),
        (64, 128),
        (1000, 2000),
        (8128, 16256),
        (20000, 40000),
    ] {
        let place = place_of(stepped(&mut bench, Request::Malloc { size })?)?;
        let again = Request::Realloc {
            place: Some(place),
            size: more,
        };
        let place = place_of(stepped(&mut bench, again)?)?;
        let answer = stepped(&mut bench, Request::Free { place: Some(place) })?;
        assert!(rt; matches!(answer, Answer::Freed));
    }
    let answer = stepped(&mut bench, Request::Exit)?;
    assert!(rt; matches!(answer, Answer::Exited));
    Ok(())
}

/// A call begins once: until it is answered, each other begin is refused and changes nothing.
#[test]
fn a_call_is_begun_once(rt: HostRuntime) -> Result<(), Fail> {
    let alloc = rt.alloc();
    let raw = ScriptedRaw::of(Vec::new(alloc), Vec::new(alloc));
    let Some(mut bench) = Bench::make(alloc, raw) else {
        return Err(Fail::from("a pool is refused"));
    };
    let begun = bench.begin(Request::Malloc { size: 8 });
    assert!(rt; begun.is_ok());
    let refused = bench.begin(Request::Exit);
    assert!(rt; matches!(refused, Err(InCall { seat: 1 })));
    let mut got = false;
    for _ in 0..MOST_TURNS {
        if let Turn::Done(answer) = bench.turn() {
            got = matches!(answer, Answer::Got { .. });
            break;
        }
    }
    assert!(rt; got);
    let answer = stepped(&mut bench, Request::Exit)?;
    assert!(rt; matches!(answer, Answer::Exited));
    Ok(())
}
