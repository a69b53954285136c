//! Moves of worked calls. The expected moves are those that an independent model of the calls prints.

use crate::{Journal, Moves, StepName, add_parts_to, looks_at_bin};
use part_model::{Holder, Journaled, Part, Totals};
use pool_types::{
    Answer, Keeper, KeeperChange, Limits, Place, Policy, Region, Request, Row, ScriptedRaw, Turn,
};
use region_steps::OfficeAt;
use std::alloc::Global;
use std::io::{self, Write};
use std::test::Fail;
use step_depot::Depot;
use step_local::{At, Local, OfficeFor, row_of};

const POLICY: Policy = Policy {
    gets: true,
    frees: true,
    version: 1,
    granularity: 0,
    fixed: false,
    keep: false,
    reserved: 0,
};

/// More turns than a call here takes.
const MOST_TURNS: u32 = 6000;

/// What a seat asks for; an object goes by the number of the call that got it.
#[derive(Clone, Copy)]
enum Ask {
    Malloc(u64),
    Aligned(u64, u64),
    Realloc(usize, u64),
    Free(usize),
    Msize(usize),
    Exit,
}

/// A pool that is stepped by its seats, what its steps moved, and what each call got.
#[derive(Drop)]
struct Bench {
    locals: Vec<Local>,
    got: Vec<Option<Place>>,
    depot: Depot<ScriptedRaw>,
    moves: Moves,
    journal: Journal,
    totals: Totals,
    moved: u64,
    looks: u64,
    text: Vec<u8>,
}

fn write_holder(text: &mut Vec<u8>, holder: Option<Holder>) -> io::Result<()> {
    match holder {
        None => write!(text, " none"),
        Some(Holder::Object(grant)) => write!(text, " object:{}#{}", grant.seat, grant.number),
        Some(Holder::LargeHead(grant)) => write!(text, " head:{}#{}", grant.seat, grant.number),
        Some(Holder::SlabCache(seat)) => write!(text, " slab-cache:{seat}"),
        Some(Holder::Cached(granules)) => write!(text, " cached:{granules}"),
        Some(Holder::Hand(seat)) => write!(text, " hand:{seat}"),
        Some(Holder::Waste) => write!(text, " waste"),
        Some(Holder::Head) => write!(text, " head"),
        Some(Holder::Rest) => write!(text, " rest"),
        Some(Holder::Private) => write!(text, " private"),
        Some(Holder::Public) => write!(text, " public"),
        Some(Holder::Bin) => write!(text, " bin"),
        Some(Holder::Queue) => write!(text, " queue"),
    }
}

fn write_keeper(text: &mut Vec<u8>, keeper: Keeper) -> io::Result<()> {
    match keeper {
        Keeper::Seat(seat) => write!(text, " {seat}"),
        Keeper::Orphan => write!(text, " orphan"),
        Keeper::Hand(seat) => write!(text, " hand:{seat}"),
    }
}

fn write_step(text: &mut Vec<u8>, moved: u64, entry: &Journaled, place: Place) -> io::Result<()> {
    write!(text, "{moved} {} ", entry.seat)?;
    text.write_all(entry.row.name())?;
    write!(text, " R{}+{}", place.region, place.offset)
}

fn write_part(text: &mut Vec<u8>, moved: u64, entry: &Journaled, part: Part) -> io::Result<()> {
    write_step(text, moved, entry, part.range.place)?;
    write!(text, " {}", part.range.bytes)?;
    write_holder(text, part.from)?;
    write_holder(text, part.to)?;
    writeln!(text)
}

fn write_change(
    text: &mut Vec<u8>,
    moved: u64,
    entry: &Journaled,
    change: KeeperChange,
) -> io::Result<()> {
    write_step(text, moved, entry, change.slab)?;
    write_keeper(text, change.from)?;
    write_keeper(text, change.to)?;
    writeln!(text)
}

fn write_entry(text: &mut Vec<u8>, moved: u64, entry: &Journaled) -> io::Result<()> {
    for part in entry.parts.as_slice() {
        write_part(text, moved, entry, *part)?;
    }
    if let Some(change) = entry.book {
        write_change(text, moved, entry, change)?;
    }
    Ok(())
}

/// The index of the region that a step gives back.
fn given_back(at: At) -> Option<u32> {
    match at {
        At::Office {
            job: OfficeFor::Put { first } | OfficeFor::Drain { first, .. },
            at: OfficeAt::Remove { given: Some(_) },
        } => u32::try_from(first).ok(),
        _ => None,
    }
}

/// A pool of two seats over a callback that gives these regions first.
fn make_bench(
    alloc: Global,
    policy: Policy,
    region: u64,
    gets: &[Option<Region>],
) -> Result<Bench, Fail> {
    let limits = Limits {
        pool: 0,
        seats: 2,
        span: 64,
        region,
    };
    let gets = Vec::from_slice(alloc, gets)?;
    let raw = ScriptedRaw::of(gets, Vec::from_slice(alloc, &[])?);
    let Ok(depot) = Depot::make(alloc, policy, limits, raw) else {
        return Err(Fail::from("a pool is refused"));
    };
    let mut locals = Vec::new(alloc);
    for seat in 0..2 {
        locals.push(Local::make(alloc, *depot.key(), seat)?)?;
    }
    Ok(Bench {
        locals,
        got: Vec::new(alloc),
        depot,
        moves: Moves::make(alloc),
        journal: Journal::make(alloc)?,
        totals: Totals::default(),
        moved: 0,
        looks: 0,
        text: Vec::new(alloc),
    })
}

/// What the next turn of a local moves, and its entries.
fn foresee(bench: &mut Bench, seat: usize) -> Result<(), Fail> {
    let Some(local) = bench.locals.get(seat) else {
        return Err(Fail::from("no such seat"));
    };
    let found = bench.depot.finds(local.next());
    let key = *bench.depot.key();
    let name = StepName {
        step: 0,
        seat: local.seat,
        row: row_of(local.at),
    };
    bench.moves.find(
        bench.depot.words(),
        &key,
        bench.depot.regions(),
        local,
        found,
    )?;
    bench
        .journal
        .record(name, looks_at_bin(local, found), &bench.moves)?;
    add_parts_to(&mut bench.totals, bench.moves.parts());
    Ok(())
}

/// One turn of a local over the pool's words.
fn step(depot: &mut Depot<ScriptedRaw>, local: &mut Local) -> Turn {
    let seen = depot.step(local.next(), given_back(local.at));
    local.told(seen)
}

/// The answer goes into the turn's entries.
fn note(journal: &mut Journal, turn: Turn) {
    if let Turn::Done(answer) = turn {
        let name = StepName {
            step: 0,
            seat: 0,
            row: Row::Nothing,
        };
        journal.answer(name, answer);
    }
}

/// One turn of a seat's call, with its moves.
fn turn(bench: &mut Bench, seat: usize) -> Result<Turn, Fail> {
    foresee(bench, seat)?;
    let Some(local) = bench.locals.get_mut(seat) else {
        return Err(Fail::from("no such seat"));
    };
    let turn = step(&mut bench.depot, local);
    note(&mut bench.journal, turn);
    Ok(turn)
}

/// Writes what the last turn moved, and counts the others that have an entry.
fn tell(bench: &mut Bench) -> io::Result<()> {
    if bench.moves.parts().is_empty() && bench.moves.book().is_empty() {
        let entries = bench.journal.entries().len();
        bench.looks = bench.looks.saturating_add(entries as u64);
        return Ok(());
    }
    bench.moved = bench.moved.saturating_add(1);
    for entry in bench.journal.entries() {
        write_entry(&mut bench.text, bench.moved, entry)?;
    }
    Ok(())
}

/// Turns of a seat's call until it is answered: the place that it got.
fn finish(bench: &mut Bench, seat: usize) -> Result<Option<Place>, Fail> {
    for _ in 0..MOST_TURNS {
        let turn = turn(bench, seat)?;
        tell(bench)?;
        match turn {
            Turn::Done(Answer::Got { place, .. }) => return Ok(Some(place)),
            Turn::Done(_) => return Ok(None),
            _ => {}
        }
    }
    Ok(None)
}

/// The request, by what earlier calls got.
fn request_of(got: &[Option<Place>], ask: Ask) -> Request {
    let at = |call: usize| got.get(call).copied().unwrap_or(None);
    match ask {
        Ask::Malloc(size) => Request::Malloc { size },
        Ask::Aligned(size, alignment) => Request::Aligned { size, alignment },
        Ask::Realloc(call, size) => Request::Realloc {
            place: at(call),
            size,
        },
        Ask::Free(call) => Request::Free { place: at(call) },
        Ask::Msize(call) => Request::Msize { place: at(call) },
        Ask::Exit => Request::Exit,
    }
}

fn begin(locals: &mut [Local], seat: usize, request: Request) {
    if let Some(local) = locals.get_mut(seat) {
        let _ = local.begin(request);
    }
}

/// Whole calls, one after another.
fn run(bench: &mut Bench, calls: &[(usize, Ask)]) -> Result<(), Fail> {
    for (seat, ask) in calls {
        let request = request_of(bench.got.as_slice(), *ask);
        begin(bench.locals.as_mut_slice(), *seat, request);
        let got = finish(bench, *seat)?;
        bench.got.push(got)?;
    }
    Ok(())
}

const WORKED: &[u8] = b"1 0 F3 R0+0 65536 none hand:0
2 0 G4 R0+16384 49152 hand:0 bin
3 0 F8 R0+0 128 hand:0 head
3 0 F8 R0+128 16256 hand:0 rest
4 0 M2 R0+8256 8128 rest object:0#1
5 0 M2 R0+128 8128 rest object:0#2
6 0 M4 R0+8256 8128 object:0#1 private
7 0 M3 R0+8256 8128 private object:0#3
8 1 M5 R0+128 8128 object:0#2 hand:1
9 1 P3 R0+128 8128 hand:1 public
10 0 P5 R0+128 8128 public private
11 0 M3 R0+128 8128 private object:0#4
12 1 M5 R0+128 8128 object:0#4 hand:1
13 1 P3 R0+128 8128 hand:1 public
14 0 P5 R0+128 8128 public private
15 0 O5 R0+0 0 orphan
16 1 O6 R0+0 orphan hand:1
17 1 O8 R0+0 hand:1 1
18 1 M3 R0+128 8128 private object:1#1
19 0 G2 R0+16384 49152 bin hand:0
20 0 G4 R0+32768 32768 hand:0 bin
21 0 M7 R0+16384 64 hand:0 head:0#5
21 0 M7 R0+16448 16320 hand:0 object:0#5
22 0 G2 R0+32768 32768 bin hand:0
23 0 G4 R0+57344 8192 hand:0 bin
24 0 M7 R0+32768 64 hand:0 head:0#6
24 0 M7 R0+32832 24512 hand:0 object:0#6
25 0 M6 R0+16384 64 head:0#5 hand:0
25 0 M6 R0+16448 16320 object:0#5 hand:0
26 0 C5 R0+16384 16384 hand:0 cached:2
27 1 M6 R0+32768 64 head:0#6 hand:1
27 1 M6 R0+32832 24512 object:0#6 hand:1
28 1 C5 R0+32768 24576 hand:1 cached:3
29 0 C6 R0+32768 24576 cached:3 hand:0
30 0 M7 R0+32768 64 hand:0 head:0#7
30 0 M7 R0+32832 24512 hand:0 object:0#7
31 0 F3 R1+0 65536 none hand:0
32 0 G4 R1+16384 49152 hand:0 bin
33 0 F8 R1+0 128 hand:0 head
33 0 F8 R1+128 16256 hand:0 rest
34 0 M2 R1+16256 128 rest object:0#8
35 0 M4 R1+16256 128 object:0#8 private
36 0 F8 R1+0 128 head hand:0
36 0 F8 R1+128 16128 rest hand:0
36 0 F8 R1+16256 128 private hand:0
37 0 F8 R1+0 16384 hand:0 slab-cache:0
38 0 F8 R1+0 16384 slab-cache:0 hand:0
39 0 G2 R1+16384 49152 bin hand:0
40 0 F4 R1+0 65536 hand:0 none
";

const WORKED_CALLS: [(usize, Ask); 17] = [
    (0, Ask::Malloc(8128)),
    (0, Ask::Malloc(8128)),
    (0, Ask::Free(0)),
    (0, Ask::Malloc(8128)),
    (1, Ask::Free(1)),
    (0, Ask::Malloc(8128)),
    (1, Ask::Free(5)),
    (0, Ask::Exit),
    (1, Ask::Malloc(8128)),
    (0, Ask::Malloc(9000)),
    (0, Ask::Realloc(9, 20000)),
    (1, Ask::Free(10)),
    (0, Ask::Malloc(20000)),
    (0, Ask::Aligned(100, 64)),
    (0, Ask::Msize(13)),
    (0, Ask::Free(13)),
    (0, Ask::Exit),
];

/// Two seats make calls of each kind: what each step moves, by its row, and the totals that the parts add up to.
#[test]
fn worked_calls_move_so(rt: HostRuntime) -> Result<(), Fail> {
    let mut bench = make_bench(rt.alloc(), POLICY, 65536, &[])?;
    run(&mut bench, &WORKED_CALLS)?;
    assert!(rt; bench.text.as_slice() == WORKED);
    let totals = Totals {
        regions: 1,
        bytes: 65536,
        head: 128,
        object: 40768,
        large_head: 64,
        cached: 16384,
        bin: 8192,
        ..Totals::default()
    };
    assert_eq!(rt; bench.totals, totals);
    Ok(())
}

const LEFT: &[u8] = b"18 0 P5 R0+16540 4032 public private
18 0 P5 R0+20572 4032 public private
18 0 P5 R0+28636 4032 public private
19 0 F8 R0+16284 256 head hand:0
19 0 F8 R0+16540 4032 private hand:0
19 0 F8 R0+20572 4032 private hand:0
19 0 F8 R0+24604 4032 private hand:0
19 0 F8 R0+28636 4032 private hand:0
20 0 G1 R0+8092 8192 bin hand:0
21 0 G2 R0+32668 24576 bin hand:0
22 0 F4 R0+0 8092 waste none
22 0 F4 R0+8092 49152 hand:0 none
22 0 F4 R0+57244 2756 waste none
";

const GIVEN_BACK: [(usize, Ask); 10] = [
    (0, Ask::Malloc(4032)),
    (0, Ask::Malloc(4032)),
    (0, Ask::Malloc(4032)),
    (0, Ask::Malloc(4032)),
    (1, Ask::Free(2)),
    (1, Ask::Free(0)),
    (1, Ask::Free(3)),
    (0, Ask::Free(1)),
    (0, Ask::Malloc(4032)),
    (0, Ask::Free(8)),
];

/// Objects that were given back in another order become private in the order of their places; a slab ends in more
/// parts than an entry has room for; and a region leaves with what is not granules of it.
#[test]
fn chains_slabs_and_regions_move_whole(rt: HostRuntime) -> Result<(), Fail> {
    let region = Region {
        base: 1048676,
        bytes: 60000,
    };
    let mut bench = make_bench(rt.alloc(), POLICY, 16384, &[Some(region)])?;
    run(&mut bench, &GIVEN_BACK)?;
    bench.text.clear();
    run(&mut bench, &[(0, Ask::Exit)])?;
    assert!(rt; bench.text.as_slice() == LEFT);
    assert_eq!(rt; bench.totals, Totals::default());
    let answer = bench
        .journal
        .entries()
        .first()
        .and_then(|entry| entry.answer);
    assert!(rt; answer == Some(Answer::Exited));
    Ok(())
}

/// A call's last scan has an entry for each bin that it looks at, and the last of them has the answer.
#[test]
fn looks_in_vain_have_entries(rt: HostRuntime) -> Result<(), Fail> {
    let policy = Policy {
        fixed: true,
        ..POLICY
    };
    let region = Region {
        base: 1048576,
        bytes: 16384,
    };
    let mut bench = make_bench(rt.alloc(), policy, 16384, &[Some(region)])?;
    run(&mut bench, &[(0, Ask::Malloc(8128))])?;
    bench.text.clear();
    bench.looks = 0;
    run(&mut bench, &[(0, Ask::Malloc(4032))])?;
    assert_eq!(rt; bench.looks, 511);
    assert!(rt; bench.text.is_empty());
    let answer = bench
        .journal
        .entries()
        .first()
        .and_then(|entry| entry.answer);
    assert!(rt; matches!(answer, Some(Answer::Null(_))));
    Ok(())
}
