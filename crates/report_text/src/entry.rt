//! What a report tells. All of it is this project's own.

use part_model::{Part, Totals};
use pool_types::{Answer, Awaited, KeeperChange, Leak, RegionRec, Row, Which};

/// What became of a region of a pool that was destroyed.
#[derive(Clone, Copy, Debug, PartialEq, Eq)]
pub enum Fate {
    /// The raw callback took it back.
    Returned,
    /// The raw callback failed to take it back.
    Refused,
    /// The policy has no callback for giving back.
    Kept,
}

/// The numbers of a cache bin: the size of its blocks in granules, how many of these are in use, how many lie in it,
/// and the bin's times in ticks of the pool's clock.
#[derive(Clone, Copy, Debug, Default, PartialEq, Eq)]
pub struct BinNumbers {
    pub granules: u16,
    pub used: u64,
    pub items: u64,
    /// For how long the items that were taken lay here, as a mean.
    pub mean: u64,
    /// How long an item may lie here.
    pub threshold: u64,
    /// The time of the last get.
    pub get: u64,
    /// The age of the item that was released last.
    pub cleaned: u64,
}

/// One entry of a report, which is one line of it. `line` is the number of the trace's line that came to this, counted
/// from 1.
#[derive(Clone, Copy, Debug, PartialEq, Eq)]
pub enum ReportEntry {
    /// The pool was made.
    Made {
        line: u32,
    },
    /// It was not, since its policy is not valid.
    InvalidPolicy {
        line: u32,
    },
    /// It was not, since its policy is of a later version.
    UnsupportedPolicy {
        line: u32,
    },
    /// It was not, since a limit is out of its range.
    BadLimits {
        line: u32,
        limit: Which,
    },
    /// The call was begun.
    Begun {
        line: u32,
    },
    /// The turns came neither to an answer nor to a wait.
    Stepped {
        line: u32,
    },
    /// The last turn waits.
    Waits {
        line: u32,
        awaited: Awaited,
    },
    /// The thread has begun no call.
    Idle {
        line: u32,
    },
    /// The thread's last call is not done.
    CallOpen {
        line: u32,
    },
    /// The last call of this seat's thread is not done.
    CallOpenOf {
        line: u32,
        seat: u8,
    },
    /// The pool was not made, or was destroyed.
    Gone {
        line: u32,
    },
    /// The pool was reset.
    Reset {
        line: u32,
    },
    /// The pool was destroyed: how many regions had each fate, and how many objects were held before.
    Destroyed {
        line: u32,
        returned: u64,
        refused: u64,
        kept: u64,
        objects: u64,
    },
    /// The call has its answer.
    Answered {
        line: u32,
        answer: Answer,
    },
    /// A region of the pool that was destroyed.
    RegionLeft {
        pool: u16,
        region: RegionRec,
        fate: Fate,
    },
    /// One part of the move of this number, which a step of this row and seat made. A row that names no step has no
    /// text.
    Moved {
        number: u64,
        seat: u8,
        row: Row,
        part: Part,
    },
    /// A slab's new keeper, in the move of this number.
    KeeperMoved {
        number: u64,
        seat: u8,
        row: Row,
        change: KeeperChange,
    },
    /// The totals of a pool, in bytes.
    Total {
        pool: u16,
        totals: Totals,
    },
    /// A bin of a pool's cache.
    CacheBin {
        pool: u16,
        bin: BinNumbers,
    },
    /// An object that is still held.
    Leaked {
        leak: Leak,
    },
}
