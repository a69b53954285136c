//! Putting a block in hand into its bin, and taking a block that was won out of it, under the bin's lock.

ghost use Rattle.std.specs.Prelude.{◌≡◌};
ghost use Rattle.backend_bins.specs.Bin.{bin_lock, bin_list, job_begins, bin_course, bin_learn};

use crate::blocks::{Block, bin_of};
use locked_chain::{InsertAt, InsertNext, ListCall, Lock, LockNext, RemoveAt, RemoveNext};
use pool_words::{Action, Word};
use word_codes::Guard;

/// Whether the block comes into its bin or leaves it.
#[derive(Clone, Copy)]
pub enum BinJob {
    Insert,
    Unlink,
}

/// The seat, the block, and which way it goes.
#[derive(Clone, Copy)]
pub struct BinCall {
    pub seat: u8,
    pub block: Block,
    pub job: BinJob,
}

#[derive(Clone, Copy)]
pub enum BinAt {
    Lock,

    /// The guard at the block's begin says that it is free.
    Size,

    /// The guard behind its end says so. From then on the block is the bin's.
    Left,

    /// The block is put in front of the list.
    Insert(InsertAt),

    /// The block is taken out of the list.
    Out(RemoveAt),

    Unlock,
}

#[derive(Clone, Copy)]
pub enum BinNext {
    Goes(BinAt),

    /// Another has the bin's lock.
    Waits,

    Done,
}

impl BinCall {
    /// The bin's lock.
    pub fn lock(self) -> Lock
        ensures { result ≡ bin_lock self }
    {
        Lock {
            word: Word::BinLock(bin_of(self.block.granules)),
            seat: self.seat,
        }
    }

    /// The bin's list.
    fn list(self) -> ListCall
        ensures { result ≡ bin_list self }
    {
        ListCall {
            head: Word::BinHead(bin_of(self.block.granules)),
            item: self.block.first,
        }
    }
}

impl BinJob {
    /// The first step under the lock.
    fn begins(self) -> BinNext
        ensures { result ≡ job_begins self }
    {
        match self {
            BinJob::Insert => BinNext::Goes(BinAt::Size),
            BinJob::Unlink => BinNext::Goes(BinAt::Out(RemoveAt::Forward)),
        }
    }
}

impl BinAt {
    pub fn next(self, call: BinCall) -> Action
        ensures { result ≡ bin_course call self }
    {
        let free = Guard::Free(call.block.granules).word();
        match self {
            BinAt::Lock => call.lock().next(),
            BinAt::Size => Action::Store(Word::Size(call.block.first), free),
            BinAt::Left => Action::Store(Word::Left(call.block.end()), free),
            BinAt::Insert(at) => at.next(call.list()),
            BinAt::Out(at) => at.next(call.list()),
            BinAt::Unlock => call.lock().frees(),
        }
    }

    pub fn told(self, call: BinCall, found: u64) -> BinNext
        ensures { result ≡ bin_learn call self found }
    {
        match self {
            BinAt::Lock => match call.lock().told(found) {
                LockNext::Won => call.job.begins(),
                LockNext::Waits => BinNext::Waits,
            },
            BinAt::Size => BinNext::Goes(BinAt::Left),
            BinAt::Left => BinNext::Goes(BinAt::Insert(InsertAt::Head)),
            BinAt::Insert(at) => match at.told(found) {
                InsertNext::Goes(next) => BinNext::Goes(BinAt::Insert(next)),
                InsertNext::Inserted => BinNext::Goes(BinAt::Unlock),
            },
            BinAt::Out(at) => match at.told(found) {
                RemoveNext::Goes(next) => BinNext::Goes(BinAt::Out(next)),
                RemoveNext::Out => BinNext::Goes(BinAt::Unlock),
            },
            BinAt::Unlock => BinNext::Done,
        }
    }
}
