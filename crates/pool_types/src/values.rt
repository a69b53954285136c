//! Places, regions, grants, what a call asks for and what it answers.

/// A byte of a pool: the pool, the number of one of its regions, and the offset in that region. This project's own,
/// in the place of addresses: the bytes behind it are not kept.
#[derive(Clone, Copy, Debug, Default, PartialEq, Eq)]
pub struct Place {
    pub pool: u16,
    pub region: u32,
    pub offset: u64,
}

/// A region (a chunk from the system) as the raw callback gave it: the address of its first byte, and how many bytes it
/// has. What `pAlloc` of a `MemPoolPolicy` returns, in oneTBB's include/oneapi/tbb/scalable_allocator.h.
#[derive(Clone, Copy, Debug, Default, PartialEq, Eq)]
pub struct Region {
    pub base: u64,
    pub bytes: u64,
}

/// The name of an object that was handed out (its identity): the seat that asked, and which of that seat's objects it
/// is. A seat's numbers in a pool are 1, 2, 3 and so on, and none comes twice. This project's own.
#[derive(Clone, Copy, Debug, Default, PartialEq, Eq)]
pub struct Grant {
    pub seat: u8,
    pub number: u64,
}

/// What a call asks of a pool. The calls of oneTBB's `rml` interface: `pool_malloc`, `pool_aligned_malloc`,
/// `pool_realloc`, `pool_aligned_realloc`, `pool_free`, `pool_msize` and `pool_identify`, and a thread's leaving.
/// Sizes and alignments are in bytes; a place of None stands for a null pointer.
#[derive(Clone, Copy, Debug, PartialEq, Eq)]
pub enum Request {
    Malloc {
        size: u64,
    },
    Aligned {
        size: u64,
        alignment: u64,
    },
    Realloc {
        place: Option<Place>,
        size: u64,
    },
    AlignedRealloc {
        place: Option<Place>,
        size: u64,
        alignment: u64,
    },
    Free {
        place: Option<Place>,
    },
    Msize {
        place: Option<Place>,
    },
    Identify {
        place: Option<Place>,
    },
    Exit,
}

/// The bins of a call's last scan, from `first` to `last`, and how many blocks were seen in them, of which none
/// fitted. This project's own.
#[derive(Clone, Copy, Debug, PartialEq, Eq)]
pub struct Looks {
    pub first: u16,
    pub last: u16,
    pub seen: u16,
}

/// Why a call answers null. This project's own: tbbmalloc's calls give a null pointer without a cause.
#[derive(Clone, Copy, Debug, PartialEq, Eq)]
pub enum NullCause {
    /// The alignment is no power of two, or an aligned request is for 0 bytes.
    BadRequest,
    /// A realloc to 0 bytes has freed the object.
    FreedByRealloc,
    /// The seat has used all its grant numbers.
    NumbersSpent,
    /// The pool's span has no room for a block of so many granules.
    TooLarge { granules: u64 },
    /// The raw callback failed.
    RawFailed,
    /// No run of free granule indices is as long as the `asked` one; the longest has `greatest`.
    SpanFull { asked: u32, greatest: u32 },
    /// `out` regions are out, and the next region's number would be `next`: one of the two is at its limit.
    RegionsFull { out: u32, next: u32 },
    /// A fixed pool that has its region has no block that fits.
    NoFit(Looks),
}

/// What a call found in the place of an object that is held.
#[derive(Clone, Copy, Debug, PartialEq, Eq)]
pub enum Found {
    /// The place is not in this pool's regions, or no object can begin there.
    NoPlace,
    /// No object that is held begins there.
    NoGrant,
    /// Meanwhile an object of another grant began there.
    Other(Grant),
}

/// What a call answers. `False` is the answer to a free of null alone, as of tbbmalloc's `pool_free`. After
/// `NotHeld`, and after each null but `FreedByRealloc`, the caller's objects are as they were.
#[derive(Clone, Copy, Debug, PartialEq, Eq)]
pub enum Answer {
    Got {
        place: Place,
        usable: u64,
        grant: Grant,
    },
    Null(NullCause),
    Freed,
    False,
    Size(u64),
    Pool(u16),
    NoPool,
    NotHeld(Found),
    Exited,
}

/// What a turn of a call waits for. This project's own.
#[derive(Clone, Copy, Debug, PartialEq, Eq)]
pub enum Awaited {
    /// The lock of this bin.
    BinLock(u16),
    /// The lock of the cache bin for blocks of so many granules.
    CacheLock(u16),
    /// The office that obtains and gives back regions.
    Office,
    /// The mailing of the slab whose first granule has this index.
    Mail(u32),
    /// The lowest bin in which this scan saw a fitting block that another seat had won, or half won.
    Half(u16),
}

/// What one turn of a seat came to.
#[derive(Clone, Copy, Debug, PartialEq, Eq)]
pub enum Turn {
    /// It made a step, and the call goes on.
    Stepped,
    /// The call goes on when something else has happened.
    Waits(Awaited),
    /// The call has its answer.
    Done(Answer),
    /// No call is begun.
    Idle,
}

/// A call was to begin at a seat whose last call is not done.
#[derive(Clone, Copy, Debug, PartialEq, Eq)]
pub struct InCall {
    pub seat: u8,
}

/// An object that is still held: where it begins, its usable bytes, and its grant.
#[derive(Clone, Copy, Debug, PartialEq, Eq)]
pub struct Leak {
    pub place: Place,
    pub usable: u64,
    pub grant: Grant,
}
