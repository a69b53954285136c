//! What a local keeps: the seat's heap, and of its call what the steps so far have come to.

ghost use Rattle.std.specs.Prelude.{◌≡◌, IfOk};
ghost use Rattle.step_local.specs.Frames.{made, no_call};

use backend_bins::{BinAt, Block, CutAt, ScanAt, Want};
use coalescer::{DrainAt, PutAt};
use heap_slabs::{Heap, Roll};
use large_cache::{Cleanup, GetAt, KeepAt, SweepAt, UndoAt};
use mailbox::{BoxAt, MailAt};
use orphans::{AdoptAt, LeaveAt};
use pool_types::{Answer, Found, NullCause, Request};
use pool_words::Key;
use public_list::{EndAt, JoinAt, LookAt, PostAt};
use region_steps::OfficeAt;
use regions::ObtainError;
use reset_steps::{ClearAt, EvictAt, SeekAt, StripAt, UniteAt, UnqueueAt};
use std::alloc::{AllocError, Global};
use word_codes::{Kind, RegionWord};

/// How far a call has come.
#[derive(Clone, Copy)]
pub enum Stage {
    /// No call is begun.
    Idle,
    /// A place is looked at.
    Looking,
    /// An object is got.
    Getting,
    /// The grant of the object that was found is ended.
    Ending,
    /// So it is, and another object was got in its place.
    Replacing,
    /// The object that was got is given up, since the other was no longer held.
    Undoing,
    /// The heap gives up all that it keeps.
    Leaving,
    /// The pool is reset, while no seat has a call.
    Resetting(ResetStage),
}

/// What a seat resets: the slabs that its heap keeps, or all else that the pool has. A pool is reset by each seat's
/// heap first, and then, as any one seat, by all else.
#[derive(Clone, Copy)]
pub enum Reset {
    Heap,
    Pool,
}

/// How far a reset has come: what is next once the block in hand is in its bin.
#[derive(Clone, Copy)]
pub enum ResetStage {
    /// Slabs of the heap: of the class whose mailbox was taken last, and then of the next class with one.
    Heap { class: Option<u8> },
    /// Slabs that nobody kept, of the class that is fetched: the one that this links to, and then those of the next
    /// class.
    Orphans { rest: Option<u64> },
    /// Large objects of a region, from this granule on.
    Large { region: RegionWord, granule: u64 },
    /// The blocks of the cache that were taken out of the bin of so many granules.
    Cache { granules: u64 },
    /// The blocks that were taken from the queue, from this one on.
    Queue { rest: Option<u64> },
    /// Regions with numbers below this one.
    Regions { below: u64 },
}

/// An object: the number of its region, its offset there, the unit at which it begins, its mark's word, and what it
/// lies in.
#[derive(Clone, Copy)]
pub struct Object {
    pub number: u64,
    pub offset: u64,
    pub unit: u64,
    pub mark: u64,
    pub kind: Kind,
}

/// What an object that is got is served as.
#[derive(Clone, Copy)]
pub enum Served {
    Small { class: u8 },
    Large { granules: u64, alignment: u64 },
}

/// Where slabs of other threads' objects were looked for, before the backend is asked.
#[derive(Clone, Copy)]
pub enum Tried {
    Nothing,
    Mailbox,
    Orphans,
}

/// What a call keeps from its begin to its answer.
#[derive(Clone, Copy)]
pub struct Call {
    pub stage: Stage,
    pub request: Request,
    /// The object that the looks found.
    pub old: Object,
    /// The object that was got.
    pub new: Object,
    pub served: Served,
    pub tried: Tried,
    /// The slab that gives the object.
    pub slab: u64,
    /// The block in hand: the large one that is got, the one of the object that was freed, or one that a reset frees.
    pub block: Block,
    /// The cache had no such block.
    pub missed: bool,
    /// The word of the region in which the object is got.
    pub region: u64,
    /// The tick that was drawn last.
    pub time: u64,
    /// How many of the oldest cached slabs have to go.
    pub surplus: u64,
    /// What was found at the old object's place, where its grant could not be ended.
    pub lost: Found,
}

/// The mailbox, or the orphans, that are dealt with: of which class, the slab that a leaving heap awaits and whether it
/// came, and the slab that is pushed back.
#[derive(Clone, Copy)]
pub struct Fetch {
    pub class: u8,
    pub awaited: u64,
    pub came: bool,
    pub spare: u64,
}

/// How often the backend was scanned in vain: not yet, once, after a region could not be had and old cached blocks were
/// released, and after all were.
#[derive(Clone, Copy)]
pub enum Tries {
    First,
    Queue,
    Soft,
    Hard,
}

/// What is asked of the backend, how far that has come, the block that it is cut from, and why no region came; none
/// where one came that has no piece that fits.
#[derive(Clone, Copy)]
pub struct Ask {
    pub want: Want,
    pub tries: Tries,
    pub block: Block,
    pub refused: Option<ObtainError>,
}

/// The cleanup that is made: the bin that it is at, by its granules, and its time.
#[derive(Clone, Copy)]
pub struct Sweep {
    pub cleanup: Cleanup,
    pub granules: u64,
    pub time: u64,
}

/// Why a block is put.
#[derive(Clone, Copy)]
pub enum PutFor {
    /// A slab of a full slab cache.
    Surplus,
    /// The oldest block of a full cache bin.
    Released,
    /// A block that a cleanup released.
    Swept,
    /// A slab that a hard cleanup gives up.
    Emptied,
    /// A slab that a leaving heap gives up.
    Left,
}

/// What the office is taken for: to obtain a region, to give back the region that a put block is, or one that a block
/// of the queue is.
#[derive(Clone, Copy)]
pub enum OfficeFor {
    Ask,
    Put { first: u64 },
    Drain { first: u64, rest: Option<u64> },
}

/// The positions in which the region of an index is looked up.
#[derive(Clone, Copy)]
pub enum LocateAt {
    /// Loads the region of this slot, until one has the index,
    Region { slot: u64 },
    /// and then its base.
    Base { slot: u64, region: u64 },
}

/// The positions of slabs that are begun, of their objects that are granted, and of slabs that end.
#[derive(Clone, Copy)]
pub enum SmallAt {
    /// A cached slab is taken.
    Uncache {
        slab: u64,
    },
    /// A new slab's next word names its keeper's mailbox,
    Next {
        slab: u64,
    },
    /// nothing is given back to it,
    Public {
        slab: u64,
    },
    /// it has its keeper,
    Own {
        slab: u64,
    },
    /// and it begins here.
    Kind {
        slab: u64,
    },
    /// Loads the mark of the slab's newest private object, to know the one behind it,
    Behind {
        slab: u64,
        head: u64,
    },
    /// and grants it.
    Private {
        slab: u64,
        head: u64,
        below: Option<u64>,
    },
    /// Grants the next object of the slab's rest.
    Rest {
        slab: u64,
        unit: u64,
    },
    /// A slab without a held object is a slab no more,
    Empty {
        slab: u64,
    },
    /// and is cached.
    Cache {
        slab: u64,
    },
    /// A cached slab is given up: the oldest one, or the newest.
    Oldest {
        slab: u64,
    },
    Newest {
        slab: u64,
    },
}

/// The positions of large objects.
#[derive(Clone, Copy)]
pub enum LargeAt {
    /// Draws a tick of the clock.
    Tick,
    /// A large object begins in this granule,
    Kind { unit: u64 },
    /// and is granted.
    Grant { unit: u64 },
}

/// The positions of a reset that no call has.
#[derive(Clone, Copy)]
pub enum ResetAt {
    /// The objects of a slab that the heap keeps are freed.
    Strip { slab: u64, at: StripAt },
    /// The next region is looked for: of its large objects, or to be united.
    Seek(SeekAt),
    /// The large objects of a region are taken.
    Evict { region: RegionWord, at: EvictAt },
    /// The cache bin of so many granules comes back to its first state.
    Clear { granules: u64, at: ClearAt },
    /// The queue is emptied.
    Unqueue(UnqueueAt),
    /// The blocks of a region are united.
    Unite { region: RegionWord, at: UniteAt },
    /// The block in hand, which is the call's, is put into its bin.
    Bin(BinAt),
}

/// A seat's position (its program counter): the step that comes next.
#[derive(Clone, Copy)]
pub enum At {
    Idle,
    /// The call has its answer, and makes no step.
    Ready(Answer),
    Look(LookAt),
    End(EndAt),
    Post(PostAt),
    Mail(MailAt),
    Mailbox(BoxAt),
    Adopt(AdoptAt),
    /// What was given back to an adopted slab is joined; `rest` is the slab behind it.
    Join {
        slab: u64,
        rest: Option<u64>,
        at: JoinAt,
    },
    /// A slab that was taken and not adopted is pushed back.
    Spare(LeaveAt),
    Leave {
        slab: u64,
        at: LeaveAt,
    },
    Locate(LocateAt),
    Small(SmallAt),
    Large(LargeAt),
    Get(GetAt),
    /// A get that missed is taken back before this null is the answer.
    Undo {
        cause: NullCause,
        at: UndoAt,
    },
    Keep(KeepAt),
    Sweep(SweepAt),
    Scan(ScanAt),
    Cut(CutAt),
    /// Looks whether blocks wait in the queue.
    Queue,
    /// The granules of a region without a piece that fits are put into their bin.
    Whole(BinAt),
    Drain(DrainAt),
    Put(PutAt),
    Office {
        job: OfficeFor,
        at: OfficeAt,
    },
    Reset(ResetAt),
}

/// One seat's part of a pool. The fields are public so that contracts see a local as its fields, and so that the same
/// local stands wherever its words do.
#[derive(Drop)]
pub struct Local {
    pub key: Key,
    pub seat: u8,
    /// The number of the seat's last grant.
    pub last: u64,
    pub heap: Heap,
    /// The blocks that a cleanup took out of the bin that it is at, the newest first.
    pub released: Roll<u64>,
    pub call: Call,
    pub fetch: Fetch,
    pub ask: Ask,
    pub sweep: Sweep,
    pub put: PutFor,
    pub at: At,
}

/// The last bin of the cache.
pub const LAST_CACHE_BIN: u64 = 1023;

/// The most blocks that a cleanup takes out of a bin.
const MOST_RELEASED: usize = 64;

const NO_OBJECT: Object = Object {
    number: 0,
    offset: 0,
    unit: 0,
    mark: 0,
    kind: Kind::Nothing,
};

const NO_BLOCK: Block = Block {
    first: 0,
    granules: 0,
};

impl Local {
    /// A heap that keeps nothing, and no call. The error is a want of memory.
    pub fn make(alloc: Global, key: Key, seat: u8) -> Result<Local, AllocError>
        ensures { IfOk result (λ local. local ≡ made key seat) }
    {
        Ok(Local {
            key,
            seat,
            last: 0,
            heap: Heap::make(alloc, key.span)?,
            released: Roll::make(alloc, MOST_RELEASED)?,
            call: no_call(),
            fetch: Fetch {
                class: 0,
                awaited: 0,
                came: false,
                spare: 0,
            },
            ask: Ask {
                want: Want {
                    granules: 0,
                    slab: false,
                },
                tries: Tries::First,
                block: NO_BLOCK,
                refused: None,
            },
            sweep: Sweep {
                cleanup: Cleanup::Regular,
                granules: 0,
                time: 0,
            },
            put: PutFor::Surplus,
            at: At::Idle,
        })
    }
}

fn no_call() -> Call
    ensures { result ≡ no_call }
{
    Call {
        stage: Stage::Idle,
        request: Request::Exit,
        old: NO_OBJECT,
        new: NO_OBJECT,
        served: Served::Small { class: 0 },
        tried: Tried::Nothing,
        slab: 0,
        block: NO_BLOCK,
        missed: false,
        region: 0,
        time: 0,
        surplus: 0,
        lost: Found::NoPlace,
    }
}
