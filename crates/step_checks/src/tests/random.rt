//! Random runs of up to six seats, each turn of which is looked at: each granule has one place, the totals that follow
//! the entries are those that are counted from the words, and a partition of bytes among holders takes each move.

ghost use Rattle.std.specs.Prelude.{◌≡◌, [], IfOk};

use super::bench::{POLICY, Pool, place_of};
use super::granules::judge;
use backend_bins::ScanStep;
use large_cache::SweepAt;
use part_model::{Move, Partition};
use pool_types::{Limits, Place, Policy, Region, Request, ScriptedRaw, Turn};
use region_steps::OfficeAt;
use std::alloc::Global;
use std::process::Abort;
use std::test::Fail;
use step_core::PlainMachine;
use step_local::At;
use word_totals::{Reading, totals};

/// The runs of a kind of pool.
const RUNS: u64 = 250;

/// The turns of a run that are checked, before its calls are brought to their ends.
const TURNS: u32 = 400;

/// More turns than a call takes, and more rounds than calls take that wait for each other.
const MANY: u64 = 100000;

/// Of turns that look at bin after bin, or at slot after slot, one in so many is checked.
const FEW: u32 = 16;

/// Drawn numbers: a linear congruential generator.
#[derive(Clone, Copy)]
struct Draws {
    state: u64,
}

impl Draws {
    /// A number below this one.
    fn below(&mut self, count: u64) -> u64 {
        self.state = self
            .state
            .wrapping_mul(6364136223846793005)
            .wrapping_add(1442695040888963407);
        self.state / 8589934592 % count.max(1)
    }

    /// One of these numbers.
    fn one_of(&mut self, numbers: &[u64]) -> u64 {
        let index = self.below(numbers.len() as u64) as usize;
        numbers.get(index).copied().unwrap_or(0)
    }

    /// Whether one of so many comes up.
    fn is_one_in(&mut self, count: u64) -> bool {
        self.below(count) == 0
    }
}

/// How regions come and go: the policy, and whether the callback fails now and then, and gives regions at odd
/// addresses.
#[derive(Clone, Copy)]
struct Regions {
    policy: Policy,
    odd: bool,
}

/// A pool, what its calls got, and the partition that its entries make.
#[derive(Drop)]
struct Watched {
    pool: Pool,
    draws: Draws,
    places: Vec<Place>,
    partition: Partition,
    passed_over: u32,
    checked: u32,
}

/// What a callback gives: nothing, or a region at an odd address.
fn odd_region(draws: &mut Draws, number: u64, bytes: u64) -> Option<Region> {
    if draws.is_one_in(3) {
        return None;
    }
    let base = number.saturating_add(1).saturating_mul(16777216);
    Some(Region {
        base: base.saturating_add(draws.below(8192)),
        bytes: bytes.saturating_add(draws.below(20000)),
    })
}

fn drawn_raw(alloc: Global, draws: &mut Draws, odd: bool, bytes: u64) -> Result<ScriptedRaw, Fail>
    ensures { IfOk result (λ raw. raw.out ≡ []) }
{
    let mut gets = Vec::new(alloc);
    if odd {
        for number in 0..12 {
            gets.push(odd_region(draws, number, bytes))?;
        }
    }
    Ok(ScriptedRaw::of(gets, Vec::new(alloc)))
}

fn drawn_limits(draws: &mut Draws) -> Limits {
    let region = draws.one_of(&[32768, 65536]);
    let span = (region / 8192)
        .saturating_add(4)
        .saturating_add(draws.below(12));
    Limits {
        pool: 0,
        seats: (draws.below(6) % 6 + 1) as u8,
        span: (span % 1024) as u32,
        region,
    }
}

fn make_watched(alloc: Global, regions: Regions, seed: u64) -> Result<Watched, Fail> {
    let mut draws = Draws { state: seed };
    let limits = drawn_limits(&mut draws);
    let raw = drawn_raw(alloc, &mut draws, regions.odd, limits.region)?;
    let Ok(machine) = PlainMachine::make(alloc, regions.policy, limits, raw) else {
        return Err(Fail::from("a pool is refused"));
    };
    Ok(Watched {
        pool: Pool { machine, alloc },
        draws,
        places: Vec::new(alloc),
        partition: Partition::empty(alloc),
        passed_over: 0,
        checked: 0,
    })
}

impl Watched {
    /// A place that some call got; its object may be freed by now.
    fn drawn_place(&mut self) -> Option<Place> {
        let count = self.places.len();
        let index = self.draws.below(count as u64) as usize;
        if index >= self.places.len() {
            return None;
        }
        if self.draws.is_one_in(8) {
            return self.places.get(index).copied();
        }
        Some(self.places.swap_remove(index))
    }

    fn drawn_size(&mut self) -> u64 {
        match self.draws.below(8) {
            0 => self.draws.below(8129),
            1 => 8,
            2 => self.draws.below(30000).saturating_add(8129),
            3 | 4 => self.draws.one_of(&[9000, 20000]),
            _ => 8128,
        }
    }

    fn drawn_request(&mut self) -> Request {
        let place = self.drawn_place();
        let size = self.drawn_size();
        let alignment = self.draws.one_of(&[16, 64, 4096, 16384]);
        match self.draws.below(16) {
            0 => Request::Exit,
            1 => Request::Msize { place },
            2 => Request::Identify { place },
            3 => Request::Realloc { place, size },
            4 => Request::AlignedRealloc {
                place,
                size,
                alignment,
            },
            5 => Request::Aligned { size, alignment },
            6 | 7 | 8 | 9 => Request::Free { place },
            _ => Request::Malloc { size },
        }
    }

    /// Whether the next step of a seat is one of a row of looks, at bin after bin or at slot after slot.
    fn looks_on(&self, seat: u8) -> bool {
        let Some(local) = self.pool.machine.locals().get(usize::from(seat)) else {
            return false;
        };
        match local.at {
            At::Scan(at) => matches!(at.step, ScanStep::Peek),
            At::Sweep(at) => matches!(at, SweepAt::Peek),
            At::Office { at, .. } => matches!(at, OfficeAt::Region { .. }),
            _ => false,
        }
    }

    /// The partition takes what a step moves.
    fn applies(&mut self) -> Result<(), Fail> {
        for entry in self.pool.machine.entries() {
            let moved = Move {
                seat: entry.seat,
                parts: entry.parts.clone()?,
            };
            if !moved.is_well_formed() {
                return Err(Fail::from("a move is not well formed"));
            }
            self.partition.apply(self.pool.alloc, &moved)?;
        }
        Ok(())
    }

    /// Each granule has one place, and the totals are those that are counted, and the partition's.
    fn assert_placed(&self, rt: &impl Abort) -> Result<(), Fail> {
        assert_eq!(rt; judge(&self.pool)?, Ok(()));
        let machine = &self.pool.machine;
        let mut reading = Reading::of(machine.key(), machine.words(), machine.locals());
        assert_eq!(rt; machine.totals(), totals(&mut reading, machine.regions()));
        assert!(rt; self.partition.can_count());
        assert_eq!(rt; machine.totals(), self.partition.totals());
        Ok(())
    }

    /// A turn was made, as one of a row of looks or not.
    fn checks(&mut self, rt: &impl Abort, looks_on: bool) -> Result<(), Fail> {
        self.passed_over = self.passed_over.saturating_add(1);
        if !looks_on || self.passed_over >= FEW {
            self.passed_over = 0;
            self.checked = self.checked.saturating_add(1);
            self.assert_placed(rt)?;
        }
        Ok(())
    }

    /// A turn of a seat, which is looked at.
    fn turn(&mut self, rt: &impl Abort, seat: u8) -> Result<Turn, Fail> {
        let looks_on = self.looks_on(seat);
        let turn = self.pool.turn(seat)?;
        self.applies()?;
        self.checks(rt, looks_on)?;
        if let Turn::Done(answer) = turn
            && let Some(place) = place_of(answer)
        {
            self.places.push(place)?;
        }
        Ok(turn)
    }

    /// So many turns of a seat at most, until one is no step.
    fn turns(&mut self, rt: &impl Abort, seat: u8, most: u64) -> Result<(), Fail> {
        for _ in 0..most {
            if self.turn(rt, seat)? != Turn::Stepped {
                return Ok(());
            }
        }
        Ok(())
    }

    /// Some turns of a drawn seat, which begins a call where it has none.
    fn goes_on(&mut self, rt: &impl Abort) -> Result<(), Fail> {
        let seats = self.pool.machine.key().seats;
        let seat = (self.draws.below(u64::from(seats)) % 256) as u8;
        if !self.pool.machine.is_in_call(seat) {
            let request = self.drawn_request();
            self.pool.begin(seat, request)?;
        }
        let most = self.draws.one_of(&[1, 2, 5, 20, 700]);
        self.turns(rt, seat, most)
    }

    /// Turns of drawn seats.
    fn runs(&mut self, rt: &impl Abort) -> Result<(), Fail> {
        for _ in 0..MANY {
            if self.checked >= TURNS {
                return Ok(());
            }
            self.goes_on(rt)?;
        }
        Err(Fail::from("a run makes no turns"))
    }

    /// Each call comes to its end, some after waits for the others.
    fn ends_calls(&mut self, rt: &impl Abort) -> Result<(), Fail> {
        let seats = self.pool.machine.key().seats;
        for _ in 0..MANY {
            if self.pool.machine.lowest_in_call().is_none() {
                return Ok(());
            }
            for seat in 0..seats {
                self.turns(rt, seat, MANY)?;
            }
        }
        Err(Fail::from("calls have no end"))
    }

    /// Resets the pool.
    fn resets(&mut self, rt: &impl Abort) -> Result<(), Fail> {
        assert_eq!(rt; self.pool.machine.begin_reset(), Ok(()));
        for _ in 0..MANY {
            let done = self.pool.machine.reset_turn(self.pool.alloc)?;
            self.applies()?;
            if done {
                return self.assert_placed(rt);
            }
        }
        Err(Fail::from("a reset has no end"))
    }
}

/// A run. At its end nobody has anything in hand; a reset then leaves no granule but in a bin.
fn run_one(rt: &impl Abort, alloc: Global, regions: Regions, seed: u64) -> Result<(), Fail> {
    let mut watched = make_watched(alloc, regions, seed)?;
    watched.runs(rt)?;
    watched.ends_calls(rt)?;
    assert_eq!(rt; watched.pool.machine.totals().hand, 0);
    watched.resets(rt)?;
    let totals = watched.pool.machine.totals();
    assert_eq!(rt; Some(totals.bin), totals.bytes.checked_sub(totals.waste));
    Ok(())
}

/// The runs of a kind of pool.
fn run_all(rt: &impl Abort, alloc: Global, regions: Regions) -> Result<(), Fail> {
    for seed in 0..RUNS {
        run_one(rt, alloc, regions, seed)?;
    }
    Ok(())
}

#[test]
fn each_granule_of_a_growing_pool_has_one_place(rt: HostRuntime) -> Result<(), Fail> {
    let regions = Regions {
        policy: POLICY,
        odd: false,
    };
    run_all(&rt, rt.alloc(), regions)
}

#[test]
fn each_granule_of_a_keeping_pool_has_one_place(rt: HostRuntime) -> Result<(), Fail> {
    let policy = Policy {
        keep: true,
        ..POLICY
    };
    run_all(&rt, rt.alloc(), Regions { policy, odd: false })
}

#[test]
fn each_granule_of_a_fixed_pool_has_one_place(rt: HostRuntime) -> Result<(), Fail> {
    let policy = Policy {
        fixed: true,
        ..POLICY
    };
    run_all(&rt, rt.alloc(), Regions { policy, odd: false })
}

#[test]
fn each_granule_of_odd_regions_has_one_place(rt: HostRuntime) -> Result<(), Fail> {
    let regions = Regions {
        policy: POLICY,
        odd: true,
    };
    run_all(&rt, rt.alloc(), regions)
}
