//! What the lines of a trace do. The language is this project's own.

use pool_types::{Place, Row};

/// What a call is asked of: null, what the name of this number stands for, or a place. Names are numbered from 0, in
/// the order in which the lines bind them.
#[derive(Clone, Copy, Debug, PartialEq, Eq)]
pub enum What {
    Null,
    Name(u32),
    Place(Place),
}

/// An option of a pool. Sizes are in bytes, the span is in granules.
#[derive(Clone, Copy, Debug, Default, PartialEq, Eq)]
pub enum PoolOption {
    #[default]
    Fixed,
    Keep,
    NoGet,
    NoFree,
    Gran(u64),
    Region(u64),
    Span(u32),
    Version(u32),
    Reserved(u32),
}

/// A call on a pool, and the number of the name that what it answers is bound to. Sizes and alignments are in bytes.
#[derive(Clone, Copy, Debug, PartialEq, Eq)]
pub enum TraceCall {
    Malloc {
        name: u32,
        size: u64,
    },
    Aligned {
        name: u32,
        size: u64,
        alignment: u64,
    },
    Realloc {
        name: u32,
        what: What,
        size: u64,
    },
    AlignedRealloc {
        name: u32,
        what: What,
        size: u64,
        alignment: u64,
    },
    Free {
        what: What,
    },
    Msize {
        what: What,
    },
    Identify {
        what: What,
    },
    Exit,
}

/// What a line does. A thread is its position among the names of the `threads` line, from 0, and a pool its position
/// among the pools that were made; the trace has the pools' options.
#[derive(Clone, Copy, Debug, PartialEq, Eq)]
pub enum Act {
    Threads,
    Pool {
        pool: u16,
    },
    RawGet {
        pool: u16,
        base: u64,
        bytes: u64,
    },
    RawGetFail {
        pool: u16,
    },
    RawPutOk {
        pool: u16,
    },
    RawPutFail {
        pool: u16,
    },
    Call {
        thread: u8,
        pool: u16,
        call: TraceCall,
    },
    Begin {
        thread: u8,
        pool: u16,
        call: TraceCall,
    },
    Step {
        thread: u8,
        pool: u16,
        turns: u32,
    },
    UpTo {
        thread: u8,
        pool: u16,
        row: Row,
    },
    Finish {
        thread: u8,
        pool: u16,
    },
    Reset {
        pool: u16,
    },
    Destroy {
        pool: u16,
    },
}

/// What a line does, and its number, counted from 1.
#[derive(Clone, Copy, Debug, PartialEq, Eq)]
pub struct TraceLine {
    pub line: u32,
    pub act: Act,
}

/// Which forms of lines are served: the plain ones, those of a replay by threads, or all of them. Plain are one thread,
/// the pool `pool P0 fixed` and calls of `malloc` of sizes to 8128 bytes, `free`, `msize` and `identify`.
#[derive(Clone, Copy, Debug, PartialEq, Eq)]
pub enum Forms {
    Plain,
    Threads,
    All,
}
