//! Asking the backend for a piece, and putting blocks.

ghost use Rattle.std.specs.Prelude.{◌≡◌};
ghost use Rattle.step_local.specs.Backend.{asked, nothing_as, looks_of, cause_of, in_vain, softened, cut_call};
ghost use Rattle.step_local.specs.Backend.{cut_as, cutting, cut_learn_of, scan_learn_of, queue_as, whole_call};
ghost use Rattle.step_local.specs.Backend.{whole_learn_of, no_piece, obtained, obtained_as, put_done, put_learn_of};
ghost use Rattle.step_local.specs.Backend.{drain_call, drained_as, drain_learn_of, drained_on, office_call};
ghost use Rattle.step_local.specs.Backend.{office_job, office_left, office_learn_of};

use crate::frames::{At, Local, OfficeFor, PutFor, Served, SmallAt, Tries};
use backend_bins::blocks::LAST_BIN;
use backend_bins::{
    BinAt, BinCall, BinJob, BinNext, Block, CutAt, CutCall, CutNext, ScanAt, ScanNext, Want, bin_of,
};
use coalescer::{DrainAt, DrainCall, DrainNext, PutAt, PutNext};
use large_cache::{Cleanup, SweepAt, UndoAt};
use pool_types::{Answer, Awaited, Looks, NullCause, Turn};
use pool_words::{OfficeJob, Seen};
use region_steps::{OfficeAt, OfficeCall, OfficeEnd, OfficeNext};
use regions::ObtainError;

/// The bins of the last scan, and how many blocks it saw.
fn looks_of(want: Want, seen: u64) -> Looks
    ensures { result ≡ looks_of want seen }
{
    Looks {
        first: (bin_of(want.granules) % 65536) as u16,
        last: (LAST_BIN % 65536) as u16,
        seen: (seen % 65536) as u16,
    }
}

/// Why there is no piece: what obtaining found, and where a region came, or a fixed pool has its own, that none fits.
fn cause_of(want: Want, seen: u64, refused: Option<ObtainError>) -> NullCause
    ensures { result ≡ cause_of want seen refused }
{
    match refused {
        Some(ObtainError::RegionsFull { out, next }) => NullCause::RegionsFull { out, next },
        Some(ObtainError::SpanFull { asked, greatest }) => NullCause::SpanFull { asked, greatest },
        Some(ObtainError::RawFailed) => NullCause::RawFailed,
        Some(ObtainError::HasRegion) | None => NullCause::NoFit(looks_of(want, seen)),
    }
}

impl Local {
    /// The backend gave the piece.
    fn has_asked(&mut self) -> Turn
        ensures { (self.new, result) ≡ asked self.old }
    {
        let piece = self.ask.want.piece(self.ask.block);
        match self.call.served {
            Served::Small { .. } => self.goes(At::Small(SmallAt::Next { slab: piece.first })),
            Served::Large { .. } => {
                self.call.block = piece;
                self.locates()
            }
        }
    }

    /// The backend has no piece: a get of the cache is taken back first.
    fn has_nothing(&mut self, cause: NullCause) -> Turn
        ensures { (self.new, result) ≡ nothing_as self.old cause self.old.call.served }
    {
        match self.call.served {
            Served::Small { .. } => self.answers(Answer::Null(cause)),
            Served::Large { .. } => self.goes(At::Undo {
                cause,
                at: UndoAt::Lock,
            }),
        }
    }

    /// A scan found nothing: the queue is looked at, then a region is obtained; where none came, blocks of the cache
    /// are released, the old ones and then all.
    fn scans_in_vain(&mut self, seen: u64) -> Turn
        ensures { (self.new, result) ≡ in_vain self.old seen self.old.ask.tries }
    {
        match self.ask.tries {
            Tries::First => self.goes(At::Queue),
            Tries::Queue => self.goes(At::Office {
                job: OfficeFor::Ask,
                at: OfficeAt::Lock,
            }),
            Tries::Soft => {
                self.ask.tries = Tries::Hard;
                self.sweeps(Cleanup::Hard, SweepAt::Peek)
            }
            Tries::Hard => {
                let cause = cause_of(self.ask.want, seen, self.ask.refused);
                self.has_nothing(cause)
            }
        }
    }

    fn softens(&mut self) -> Turn
        ensures { (self.new, result) ≡ softened self.old }
    {
        self.ask.tries = Tries::Soft;
        self.sweeps(Cleanup::Soft, SweepAt::Clock)
    }

    /// The piece is cut from a block in hand.
    pub fn cut_call(&self) -> CutCall
        ensures { result ≡ cut_call self.now }
    {
        CutCall {
            seat: self.seat,
            block: self.ask.block,
            piece: self.ask.want.piece(self.ask.block),
        }
    }

    fn cuts_on(&mut self, at: At, next: CutNext) -> Turn
        ensures { (self.new, result) ≡ cut_as self.old at next }
    {
        match next {
            CutNext::Goes(next) => self.goes(At::Cut(next)),
            CutNext::Waits(bin) => self.waits_for_bin(at, bin),
            CutNext::Done => self.has_asked(),
        }
    }

    fn cuts(&mut self, block: Block) -> Turn
        ensures { (self.new, result) ≡ cutting self.old block }
    {
        self.ask.block = block;
        let next = self.cut_call().begins();
        let at = self.at;
        self.cuts_on(at, next)
    }

    pub fn told_cut(&mut self, at: CutAt, found: u64) -> Turn
        ensures { (self.new, result) ≡ cut_learn_of self.old at found }
    {
        let next = at.told(self.cut_call(), found);
        self.cuts_on(At::Cut(at), next)
    }

    pub fn told_scan(&mut self, at: ScanAt, found: u64) -> Turn
        ensures { (self.new, result) ≡ scan_learn_of self.old at found }
    {
        match at.told(self.scan_call(), found) {
            ScanNext::Goes(next) => self.goes(At::Scan(next)),
            ScanNext::WaitsLock => self.waits_for_bin(At::Scan(at), at.bin),
            ScanNext::WaitsHalf { bin, again } => {
                let bin = (bin % 65536) as u16;
                self.waits(At::Scan(again), Awaited::Half(bin))
            }
            ScanNext::Took(block) => self.cuts(block),
            ScanNext::Nothing { seen } => self.scans_in_vain(seen),
        }
    }

    /// Whether blocks wait in the queue.
    pub fn told_queue(&mut self, head: Option<u64>) -> Turn
        ensures { (self.new, result) ≡ queue_as self.old head }
    {
        match head {
            None => self.goes(At::Office {
                job: OfficeFor::Ask,
                at: OfficeAt::Lock,
            }),
            Some(_) => {
                self.ask.tries = Tries::Queue;
                self.goes(At::Drain(DrainAt::Swap))
            }
        }
    }

    /// The granules of a region without a piece that fits go into their bin.
    pub fn whole_call(&self) -> BinCall
        ensures { result ≡ whole_call self.now }
    {
        BinCall {
            seat: self.seat,
            block: self.ask.block,
            job: BinJob::Insert,
        }
    }

    pub fn told_whole(&mut self, at: BinAt, found: u64) -> Turn
        ensures { (self.new, result) ≡ whole_learn_of self.old at found }
    {
        match at.told(self.whole_call(), found) {
            BinNext::Goes(next) => self.goes(At::Whole(next)),
            BinNext::Waits => {
                let bin = bin_of(self.ask.block.granules);
                self.waits_for_bin(At::Whole(at), bin)
            }
            BinNext::Done => self.softens(),
        }
    }

    fn has_no_piece(&mut self, block: Block) -> Turn
        ensures { (self.new, result) ≡ no_piece self.old block }
    {
        if block.granules == 0 {
            return self.softens();
        }
        self.ask.block = block;
        self.goes(At::Whole(BinAt::Lock))
    }

    /// A region came.
    fn has_obtained(&mut self, block: Block) -> Turn
        ensures { (self.new, result) ≡ obtained self.old block }
    {
        if self.ask.want.fits(block) {
            return self.cuts(block);
        }
        self.has_no_piece(block)
    }

    fn obtains(&mut self, end: OfficeEnd) -> Turn
        ensures { (self.new, result) ≡ obtained_as self.old end }
    {
        match end {
            OfficeEnd::Obtained(came) => self.has_obtained(Block {
                first: u64::from(came.first),
                granules: u64::from(came.granules),
            }),
            OfficeEnd::Refused(error) => {
                self.ask.refused = Some(error);
                self.softens()
            }
            OfficeEnd::Given => self.softens(),
        }
    }

    /// A block is put, or its region was given back.
    fn has_put(&mut self) -> Turn
        ensures { (self.new, result) ≡ put_done self.old }
    {
        match self.put {
            PutFor::Surplus => self.gives_surplus(),
            PutFor::Released => self.has_ticked(),
            PutFor::Swept => self.releases(),
            PutFor::Emptied => self.empties_heap(),
            PutFor::Left => self.leaves(),
        }
    }

    pub fn told_put(&mut self, at: PutAt, found: u64) -> Turn
        ensures { (self.new, result) ≡ put_learn_of self.old at found }
    {
        match at.told(self.put_call(), found) {
            PutNext::Goes(next) => self.goes(At::Put(next)),
            PutNext::Waits(bin) => self.waits_for_bin(At::Put(at), bin),
            PutNext::Done => self.has_put(),
            PutNext::Gives(block) => self.goes(At::Office {
                job: OfficeFor::Put { first: block.first },
                at: OfficeAt::Lock,
            }),
        }
    }

    pub fn drain_call(&self) -> DrainCall
        ensures { result ≡ drain_call self.now }
    {
        DrainCall {
            seat: self.seat,
            gives: self.gives_back(),
        }
    }

    /// The queue is emptied; then the bins are scanned again.
    fn drains_on(&mut self, at: At, next: DrainNext) -> Turn
        ensures { (self.new, result) ≡ drained_as self.old at next }
    {
        match next {
            DrainNext::Goes(next) => self.goes(At::Drain(next)),
            DrainNext::Waits(bin) => self.waits_for_bin(at, bin),
            DrainNext::Gives { block, rest } => self.goes(At::Office {
                job: OfficeFor::Drain {
                    first: block.first,
                    rest,
                },
                at: OfficeAt::Lock,
            }),
            DrainNext::Drained => self.scans(),
        }
    }

    pub fn told_drain(&mut self, at: DrainAt, found: u64) -> Turn
        ensures { (self.new, result) ≡ drain_learn_of self.old at found }
    {
        let next = at.told(self.drain_call(), found);
        self.drains_on(At::Drain(at), next)
    }

    /// The region of a block of the queue was given back.
    fn has_drained(&mut self, rest: Option<u64>) -> Turn
        ensures { (self.new, result) ≡ drained_on self.old rest }
    {
        let at = self.at;
        self.drains_on(at, DrainAt::goes_on(rest))
    }

    /// What the office is asked for.
    fn office_job(&self, job: OfficeFor) -> OfficeJob
        ensures { result ≡ office_job self.now job }
    {
        match job {
            OfficeFor::Ask => OfficeJob::Obtain {
                granules: (self.ask.want.granules % 4294967296) as u32,
            },
            OfficeFor::Put { first } => OfficeJob::Give {
                first: (first % 4294967296) as u32,
            },
            OfficeFor::Drain { first, .. } => OfficeJob::Give {
                first: (first % 4294967296) as u32,
            },
        }
    }

    pub fn office_call(&self, job: OfficeFor) -> OfficeCall
        ensures { result ≡ office_call self.now job }
    {
        OfficeCall {
            seat: self.seat,
            job: self.office_job(job),
        }
    }

    fn leaves_office(&mut self, job: OfficeFor, end: OfficeEnd) -> Turn
        ensures { (self.new, result) ≡ office_left self.old job end }
    {
        match job {
            OfficeFor::Ask => self.obtains(end),
            OfficeFor::Put { .. } => self.has_put(),
            OfficeFor::Drain { rest, .. } => self.has_drained(rest),
        }
    }

    pub fn told_office(&mut self, job: OfficeFor, at: OfficeAt, seen: Seen) -> Turn
        ensures { (self.new, result) ≡ office_learn_of self.old job at seen }
    {
        match at.told(self.office_call(job), seen) {
            OfficeNext::Goes(next) => self.goes(At::Office { job, at: next }),
            OfficeNext::Waits => self.waits(At::Office { job, at }, Awaited::Office),
            OfficeNext::Left(end) => self.leaves_office(job, end),
        }
    }
}
