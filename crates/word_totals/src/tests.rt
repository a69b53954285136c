//! What is counted after calls and in the middle of one, beside worked numbers.

use crate::{Reading, cache, cache_items, leaks, totals};
use part_model::Totals;
use pool_types::{Answer, Grant, Leak, Limits, Place, Policy, Request, ScriptedRaw, Turn};
use std::alloc::Global;
use std::test::Fail;
use step_depot::Depot;
use step_local::Local;

const POLICY: Policy = Policy {
    gets: true,
    frees: true,
    version: 1,
    granularity: 0,
    fixed: true,
    keep: false,
    reserved: 0,
};

/// A pool of two seats that has one region of eight granules, behind which no other is obtained.
const LIMITS: Limits = Limits {
    pool: 0,
    seats: 2,
    span: 10,
    region: 65536,
};

#[derive(Drop)]
struct Pool {
    depot: Depot<ScriptedRaw>,
    locals: Vec<Local>,
}

fn make_pool(alloc: Global) -> Result<Pool, Fail> {
    let raw = ScriptedRaw::of(Vec::new(alloc), Vec::new(alloc));
    let depot = Depot::make(alloc, POLICY, LIMITS, raw).map_err(|_| Fail::from(
        "a pool is refused",
    ))?;
    let mut locals = Vec::new(alloc);
    for seat in 0..LIMITS.seats {
        locals.push(Local::make(alloc, *depot.key(), seat)?)?;
    }
    Ok(Pool { depot, locals })
}

impl Pool {
    fn begin(&mut self, seat: usize, request: Request) {
        if seat < self.locals.len() {
            let _ = self.locals[seat].begin(request);
        }
    }

    fn turn(&mut self, seat: usize) -> Turn {
        if seat >= self.locals.len() {
            return Turn::Idle;
        }
        let seen = self.depot.step(self.locals[seat].next(), None);
        self.locals[seat].told(seen)
    }

    /// Makes so many turns of a seat at most, until one is no step.
    fn run(&mut self, seat: usize, most: u32) -> Turn {
        for _ in 0..most {
            let turn = self.turn(seat);
            if turn != Turn::Stepped {
                return turn;
            }
        }
        Turn::Stepped
    }

    /// A whole call of the first seat: where its object is, if it got one.
    fn call(&mut self, request: Request) -> Option<Place> {
        self.begin(0, request);
        match self.run(0, 9999) {
            Turn::Done(Answer::Got { place, .. }) => Some(place),
            _ => None,
        }
    }

    fn reading(&self) -> Reading<'_> {
        Reading::of(self.depot.key(), self.depot.words(), self.locals.as_slice())
    }

    fn totals(&self) -> Totals {
        totals(&mut self.reading(), self.depot.regions())
    }
}

/// The totals of a region of 65536 bytes.
const ONE_REGION: Totals = Totals {
    regions: 1,
    bytes: 65536,
    waste: 0,
    head: 0,
    rest: 0,
    private: 0,
    public: 0,
    object: 0,
    large_head: 0,
    slab_cache: 0,
    cached: 0,
    bin: 0,
    queue: 0,
    hand: 0,
};

/// Of two objects the first is freed, and the second is given back by another seat, which has it in hand first.
#[test]
fn small_objects(rt: HostRuntime) -> Result<(), Fail> {
    let mut pool = make_pool(rt.alloc())?;
    let one = pool.call(Request::Malloc { size: 100 });
    let two = pool.call(Request::Malloc { size: 100 });
    pool.call(Request::Free { place: one });
    pool.begin(1, Request::Free { place: two });
    let slab = Totals {
        head: 144,
        rest: 16016,
        private: 112,
        bin: 49152,
        ..ONE_REGION
    };
    let held = Totals {
        object: 112,
        ..slab
    };
    assert_eq!(rt; pool.totals(), held);
    pool.run(1, 5);
    assert_eq!(rt; pool.totals(), Totals { hand: 112, ..slab });
    pool.run(1, 3);
    let listed = Totals {
        public: 112,
        ..slab
    };
    assert_eq!(rt; pool.totals(), listed);
    Ok(())
}

/// One large object is held, and one was freed and is cached.
#[test]
fn large_objects(rt: HostRuntime) -> Result<(), Fail> {
    let mut pool = make_pool(rt.alloc())?;
    let one = pool.call(Request::Malloc { size: 9000 });
    pool.call(Request::Malloc { size: 9000 });
    pool.call(Request::Free { place: one });
    let want = Totals {
        object: 16320,
        large_head: 64,
        cached: 16384,
        bin: 32768,
        ..ONE_REGION
    };
    assert_eq!(rt; pool.totals(), want);
    let bin = cache(&mut pool.reading(), 2);
    assert_eq!(rt; bin.used, 1);
    assert_eq!(rt; bin.get, 2);
    assert_eq!(rt; bin.ages.as_slice(), [3].as_slice());
    assert_eq!(rt; cache_items(&mut pool.reading(), 2), 1);
    Ok(())
}

/// What is held is told by offset, with its grant.
#[test]
fn what_is_held(rt: HostRuntime) -> Result<(), Fail> {
    let mut pool = make_pool(rt.alloc())?;
    let one = pool.call(Request::Malloc { size: 100 });
    pool.call(Request::Malloc { size: 9000 });
    pool.call(Request::Malloc { size: 100 });
    pool.call(Request::Free { place: one });
    let held = leaks(&mut pool.reading(), rt.alloc())?;
    let leak = |offset, usable, number| Leak {
        place: Place {
            pool: 0,
            region: 0,
            offset,
        },
        usable,
        grant: Grant { seat: 0, number },
    };
    let want = [leak(16160, 112, 3), leak(16448, 16320, 2)];
    assert_eq!(rt; held.as_slice(), want.as_slice());
    Ok(())
}
