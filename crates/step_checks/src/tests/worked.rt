//! The steps of worked calls, one after another on one pool of two threads: how many turns each has, and the kinds of
//! its steps in order. A kind that is made n times in a row stands once, with `*n`; an exchange that found another
//! value stands in brackets. The expected rows were worked by hand from the order of the steps of each call, and an
//! independent model makes the same.

use super::bench::{LIMITS, POLICY, Pool, place_of, pool_of};
use pool_types::{Place, Request, Row, Turn};
use std::alloc::Global;
use std::io::{self, Write};
use std::process::Abort;
use std::test::Fail;
use step_local::row_of;

/// What is asked; an object goes by the place in the table of the call that got it.
#[derive(Clone, Copy)]
enum Ask {
    Malloc(u64),
    Aligned(u64, u64),
    Realloc(usize, u64),
    AlignedRealloc(usize, u64, u64),
    Free(usize),
    Msize(usize),
    Identify(usize),
    Exit,
}

/// A call, and its steps.
#[derive(Clone, Copy)]
struct Worked {
    shows: &'static str,
    seat: u8,
    ask: Ask,
    turns: u32,
    rows: &'static str,
}

/// A stranger's free of an object of a slab on which no other object was pushed.
const MAILS: &str = "F5 M1 F5 F7 M5 P1 P2 P3 N1 N2 N3 N4";

const CALLS: [Worked; 19] = [
    Worked {
        shows: "the first object obtains a region",
        seat: 0,
        ask: Ask::Malloc(8128),
        turns: 605,
        rows: "N5 O6 B3*511 Q1 F1 F5*64 F9 F3*2 G5 G6 G5 G6 F10 F2 G6 G5 B1 G3 G4 B3 B5 B6 B4 B2 N7 P5 O8 F8 F5*2 M2",
    },
    Worked {
        shows: "the next object of a slab's rest",
        seat: 0,
        ask: Ask::Malloc(8128),
        turns: 3,
        rows: "F5*2 M2",
    },
    Worked {
        shows: "a keeper's free",
        seat: 0,
        ask: Ask::Free(0),
        turns: 5,
        rows: "F5 M1 F5 F7 M4",
    },
    Worked {
        shows: "a private object is granted again",
        seat: 0,
        ask: Ask::Malloc(8128),
        turns: 4,
        rows: "F5*2 M1 M3",
    },
    Worked {
        shows: "a stranger's free mails the slab",
        seat: 1,
        ask: Ask::Free(1),
        turns: 12,
        rows: MAILS,
    },
    Worked {
        shows: "a mailed slab gives its object",
        seat: 0,
        ask: Ask::Malloc(8128),
        turns: 10,
        rows: "N5 N6 N7 P5 M1 M8 F5*2 M1 M3",
    },
    Worked {
        shows: "the slab is mailed again",
        seat: 1,
        ask: Ask::Free(5),
        turns: 12,
        rows: MAILS,
    },
    Worked {
        shows: "a leaving thread takes the mail and leaves the slab",
        seat: 0,
        ask: Ask::Exit,
        turns: 13,
        rows: "(P6) N5 N6 N7 P5 M1 M8 P6 O1 O2 O3 O4 O5",
    },
    Worked {
        shows: "a slab that was left is adopted",
        seat: 1,
        ask: Ask::Malloc(8128),
        turns: 11,
        rows: "N5 O6 O7*2 N7 O8 P5 F5*2 M1 M3",
    },
    Worked {
        shows: "a large object is cut from a free block",
        seat: 0,
        ask: Ask::Malloc(9000),
        turns: 35,
        rows: "F6 C1 C3*2 C4 C3 C4 C2 B3*5 B1 B3 G1 G2 B3*2 B4 B2 G6 G5 B1 G3 G4 B3 B5 B6 B4 B2 F5*2 F8 M7",
    },
    Worked {
        shows: "a realloc gets another block and caches the old one",
        seat: 0,
        ask: Ask::Realloc(9, 20000),
        turns: 50,
        rows: "F5 M1 F5 F7 F5 M1 F6 C1 C3*2 C4 C3 C4 C2 B3*2 B1 B3 G1 G2 B3*2 B4 B2 G6 G5 B1 G3 G4 B3 B5 B6 B4 B2 \
            F5*2 F8 M7 M6 F6 C1 C3*2 C4*2 C5 C4 C3 C4 C2",
    },
    Worked {
        shows: "a stranger's free caches a large block",
        seat: 1,
        ask: Ask::Free(10),
        turns: 16,
        rows: "F5 M1 F5 F7 M6 F6 C1 C3*2 C4*2 C5 C4 C3 C4 C2",
    },
    Worked {
        shows: "a cached block is taken again",
        seat: 0,
        ask: Ask::Malloc(20000),
        turns: 18,
        rows: "F6 C1 C3*5 C6 C4*3 C3 C4 C2 F5*2 F8 M7",
    },
    Worked {
        shows: "an aligned object obtains a second region",
        seat: 0,
        ask: Ask::Aligned(100, 64),
        turns: 606,
        rows: "N5 O6 B3*511 Q1 F1 F5*64 F9 F3*2 G5 G6 G5 G6 F10 F2 G6 G5 B1 G3 G4 B3 B5 B6 B4 B2 N7 P5 O8 F8 F5*3 M2",
    },
    Worked {
        shows: "a realloc keeps its place",
        seat: 0,
        ask: Ask::AlignedRealloc(13, 100, 64),
        turns: 6,
        rows: "F5 M1 F5 F7 F5 M1",
    },
    Worked {
        shows: "the usable bytes are told",
        seat: 0,
        ask: Ask::Msize(14),
        turns: 5,
        rows: "F5 M1 F5 F7 M1",
    },
    Worked {
        shows: "a slab without an object is cached",
        seat: 0,
        ask: Ask::Free(14),
        turns: 7,
        rows: "F5 M1 F5 F7 M4 F8*2",
    },
    Worked {
        shows: "no pool holds an object that was freed",
        seat: 0,
        ask: Ask::Identify(14),
        turns: 3,
        rows: "F5 M1 F5",
    },
    Worked {
        shows: "a cached slab goes back with its region",
        seat: 0,
        ask: Ask::Exit,
        turns: 82,
        rows: "F8 G5 G6 G8 G7 G1 G2 B1 B3*2 B4 B2 G7 F1 F5*64 F9 F4 F10 F2",
    },
];

/// The steps of a call: each kind with how often it comes in a row, as a text.
#[derive(Drop)]
struct Rows {
    text: Vec<u8>,
    last: Option<(Row, bool)>,
    times: u32,
}

impl Rows {
    fn none(alloc: Global) -> Rows {
        Rows {
            text: Vec::new(alloc),
            last: None,
            times: 0,
        }
    }

    /// Writes the kind that came last.
    fn close(&mut self) -> io::Result<()> {
        let Some((row, made)) = self.last else {
            return Ok(());
        };
        if !self.text.is_empty() {
            write!(self.text, " ")?;
        }
        if !made {
            write!(self.text, "(")?;
        }
        self.text.write_all(row.name())?;
        if !made {
            write!(self.text, ")")?;
        }
        if self.times > 1 {
            write!(self.text, "*{}", self.times)?;
        }
        Ok(())
    }

    /// One more step.
    fn add(&mut self, row: Row, made: bool) -> io::Result<()> {
        let step = Some((row, made));
        if step == self.last {
            self.times = self.times.saturating_add(1);
        } else {
            self.close()?;
            self.last = step;
            self.times = 1;
        }
        Ok(())
    }
}

/// The request of a call, whose object may be one that an earlier call got.
fn request_of(ask: Ask, places: &[Option<Place>]) -> Request {
    let place = |index: usize| places.get(index).copied().flatten();
    match ask {
        Ask::Malloc(size) => Request::Malloc { size },
        Ask::Aligned(size, alignment) => Request::Aligned { size, alignment },
        Ask::Realloc(index, size) => Request::Realloc {
            place: place(index),
            size,
        },
        Ask::AlignedRealloc(index, size, alignment) => Request::AlignedRealloc {
            place: place(index),
            size,
            alignment,
        },
        Ask::Free(index) => Request::Free {
            place: place(index),
        },
        Ask::Msize(index) => Request::Msize {
            place: place(index),
        },
        Ask::Identify(index) => Request::Identify {
            place: place(index),
        },
        Ask::Exit => Request::Exit,
    }
}

/// The kind of the step that comes next at a seat.
fn next_row(pool: &Pool, seat: u8) -> Row {
    match pool.machine.locals().get(usize::from(seat)) {
        Some(local) => row_of(local.at),
        None => Row::Nothing,
    }
}

/// Makes the turns of a call that is begun, notes their steps, and tells how many there were and how the last one
/// ended.
fn steps_of(pool: &mut Pool, seat: u8, rows: &mut Rows) -> Result<(u32, Turn), Fail> {
    for before in 0..1000 {
        let row = next_row(pool, seat);
        let turn = pool.turn(seat)?;
        let made = pool.machine.made();
        if let Some(made) = made
            && made != row
        {
            return Err(Fail::from("another step was made than came next"));
        }
        rows.add(row, made.is_some())?;
        if turn != Turn::Stepped {
            rows.close()?;
            return Ok((before + 1, turn));
        }
    }
    Err(Fail::from("a call has no end"))
}

fn assert_rows(rt: &impl Abort, rows: &[u8], want: &str, shows: &str) {
    assert_eq!(rt; rows, want.as_bytes(), "at {shows}");
}

#[test]
fn calls_make_their_steps_in_order(rt: HostRuntime) -> Result<(), Fail> {
    let alloc = rt.alloc();
    let mut pool = pool_of(alloc, POLICY, LIMITS)?;
    let mut places = Vec::new(alloc);
    for call in CALLS {
        pool.begin(call.seat, request_of(call.ask, places.as_slice()))?;
        let mut rows = Rows::none(alloc);
        let (turns, turn) = steps_of(&mut pool, call.seat, &mut rows)?;
        let Turn::Done(answer) = turn else {
            return Err(Fail::from("a call waits"));
        };
        assert_rows(&rt, rows.text.as_slice(), call.rows, call.shows);
        assert_eq!(rt; turns, call.turns, "at {}", call.shows);
        places.push(place_of(answer))?;
    }
    Ok(())
}
