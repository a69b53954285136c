//! Objects: what a look found, the ending of a grant, and the answers.

ghost use Rattle.std.specs.Prelude.{◌≡◌};
ghost use Rattle.step_local.specs.Answers.{gone, waiting, bin_waits, answered, usable_of, grant_of, place_of, got_of};
ghost use Rattle.step_local.specs.Answers.{not_held_as, slab_of, ended_object, head_at, end_call, end_by, ending};
ghost use Rattle.step_local.specs.Answers.{freed_as, ended_as, ended, lost_end, next_mark, kind_got, object_got};
ghost use Rattle.step_local.specs.Answers.{replaces, got};
ghost use Rattle.step_local.specs.Objects.{look_reason, look_call, look_learn_of, held, end_learn_of, post_call};
ghost use Rattle.step_local.specs.Objects.{post_learn_of, mail_call, mail_learn_of, freed_own, block_in};

use crate::frames::{At, LargeAt, Local, Object, Served, SmallAt, Stage};
use backend_bins::Block;
use chain_words::PushAt;
use mailbox::{MailAt, MailCall, MailNext};
use pool_types::geometry::{GRANULE_BYTES, UNIT_BYTES};
use pool_types::limits::REGION_NUMBERS;
use pool_types::{Answer, Awaited, Found, Grant, NullCause, Place, Request, Turn};
use public_list::{
    EndAt, EndCall, EndNext, LookAt, LookCall, LookFor, LookNext, PostAt, PostCall, PostNext,
};
use size_classes::numbered::size_of;
use word_codes::{Kind, Mark, RegionWord, granule_of, slab_granule};

/// Offsets in an answer are below this.
const OFFSETS_END: u64 = 134217728;

/// The usable bytes of an object that begins at a unit: those of its class, or those up to its block's end.
pub fn usable_of(kind: Kind, unit: u64) -> u64
    ensures { result ≡ usable_of kind unit }
{
    match kind {
        Kind::Slab(class) => size_of(class),
        Kind::Large { first, granules } => {
            let end = first
                .saturating_add(granules)
                .saturating_mul(GRANULE_BYTES / UNIT_BYTES);
            end.saturating_sub(unit).saturating_mul(UNIT_BYTES)
        }
        Kind::Nothing | Kind::CachedSlab => 0,
    }
}

/// The first granule of the slab that a unit may be in.
pub fn slab_of(unit: u64) -> u64
    ensures { result ≡ slab_of unit }
{
    slab_granule(granule_of(unit))
}

fn grant_of(mark: Mark) -> Grant
    ensures { result ≡ grant_of mark }
{
    match mark {
        Mark::Granted(grant) => grant,
        _ => Grant { seat: 0, number: 0 },
    }
}

/// The block of a large object.
fn block_in(kind: Kind) -> Block
    ensures { result ≡ block_in kind }
{
    match kind {
        Kind::Large { first, granules } => Block { first, granules },
        _ => Block {
            first: 0,
            granules: 0,
        },
    }
}

pub fn not_held_as(request: Request, found: Found) -> Answer
    ensures { result ≡ not_held_as request found }
{
    match request {
        Request::Identify { .. } => Answer::NoPool,
        _ => Answer::NotHeld(found),
    }
}

/// The answer once the grant that the call asked to end is ended.
fn freed_as(request: Request) -> Answer
    ensures { result ≡ freed_as request }
{
    match request {
        Request::Realloc { .. } => Answer::Null(NullCause::FreedByRealloc),
        Request::AlignedRealloc { .. } => Answer::Null(NullCause::FreedByRealloc),
        _ => Answer::Freed,
    }
}

/// Whether the request replaces an object.
fn replaces(request: Request) -> bool
    ensures { result ≡ replaces request }
{
    match request {
        Request::Realloc { place, .. } => place.is_some(),
        Request::AlignedRealloc { place, .. } => place.is_some(),
        _ => false,
    }
}

/// What a look is for.
fn look_reason(request: Request) -> LookFor
    ensures { result ≡ look_reason request }
{
    match request {
        Request::Msize { .. } => LookFor::Size,
        Request::Identify { .. } => LookFor::Pool,
        Request::Realloc { .. } => LookFor::Realloc,
        Request::AlignedRealloc { .. } => LookFor::Realloc,
        _ => LookFor::Free,
    }
}

impl Local {
    /// The call goes on here.
    pub fn goes(&mut self, at: At) -> Turn
        ensures { (self.new, result) ≡ gone self.old at }
    {
        self.at = at;
        Turn::Stepped
    }

    /// The call waits, and this step is next.
    pub fn waits(&mut self, at: At, awaited: Awaited) -> Turn
        ensures { (self.new, result) ≡ waiting self.old at awaited }
    {
        self.at = at;
        Turn::Waits(awaited)
    }

    /// Another has this bin's lock.
    pub fn waits_for_bin(&mut self, at: At, bin: u64) -> Turn
        ensures { (self.new, result) ≡ bin_waits self.old at bin }
    {
        let bin = (bin % 65536) as u16;
        self.waits(at, Awaited::BinLock(bin))
    }

    /// The call has its answer.
    pub fn answers(&mut self, answer: Answer) -> Turn
        ensures { (self.new, result) ≡ answered self.old answer }
    {
        self.call.stage = Stage::Idle;
        self.at = At::Idle;
        Turn::Done(answer)
    }

    fn place_of(&self, object: Object) -> Place
        ensures { result ≡ place_of self.now object }
    {
        Place {
            pool: self.key.pool,
            region: (object.number % REGION_NUMBERS) as u32,
            offset: object.offset % OFFSETS_END,
        }
    }

    /// The answer that an object is got.
    pub fn got_of(&self, object: Object) -> Answer
        ensures { result ≡ got_of self.now object }
    {
        Answer::Got {
            place: self.place_of(object),
            usable: usable_of(object.kind, object.unit),
            grant: grant_of(Mark::of_word(object.mark)),
        }
    }

    /// The object whose grant is ended.
    pub fn ended_object(&self) -> Object
        ensures { result ≡ ended_object self.now }
    {
        match self.call.stage {
            Stage::Undoing => self.call.new,
            _ => self.call.old,
        }
    }

    /// The newest private object of a slab that the heap keeps.
    pub fn head_at(&self, slab: u64) -> Option<u64>
        ensures { result ≡ head_at self.now slab }
    {
        match self.heap.slabs.find(slab) {
            Some(kept) => kept.head,
            None => None,
        }
    }

    pub fn end_call(&self) -> EndCall
        ensures { result ≡ end_call self.now }
    {
        let object = self.ended_object();
        EndCall {
            unit: object.unit,
            mark: object.mark,
            number: object.number,
            seat: self.seat,
            head: self.head_at(slab_of(object.unit)),
        }
    }

    fn end_by(&self, unit: u64, kind: Kind) -> EndAt
        ensures { result ≡ end_by self.now unit kind }
    {
        match kind {
            Kind::Slab(_) => match self.heap.slabs.find(slab_of(unit)) {
                Some(_) => EndAt::Own,
                None => EndAt::Other,
            },
            Kind::Large { .. } => EndAt::Large,
            Kind::Nothing | Kind::CachedSlab => EndAt::Other,
        }
    }

    /// A grant is to be ended, at this stage of the call.
    pub fn ends(&mut self, stage: Stage) -> Turn
        ensures { (self.new, result) ≡ ending self.old stage }
    {
        self.call.stage = stage;
        let object = self.ended_object();
        let at = self.end_by(object.unit, object.kind);
        self.goes(At::End(at))
    }

    fn ended_as(&self, stage: Stage) -> Answer
        ensures { result ≡ ended_as self.now stage }
    {
        match stage {
            Stage::Replacing => self.got_of(self.call.new),
            Stage::Undoing => Answer::NotHeld(self.call.lost),
            Stage::Ending => freed_as(self.call.request),
            _ => Answer::Freed,
        }
    }

    /// A grant is ended, with all that follows.
    pub fn has_ended(&mut self) -> Turn
        ensures { (self.new, result) ≡ ended self.old }
    {
        let answer = self.ended_as(self.call.stage);
        self.answers(answer)
    }

    /// A grant could not be ended: where another object was got in its place, that one is given up.
    fn loses_end(&mut self, found: Found) -> Turn
        ensures { (self.new, result) ≡ lost_end self.old found }
    {
        match self.call.stage {
            Stage::Replacing => {
                self.call.lost = found;
                self.ends(Stage::Undoing)
            }
            Stage::Undoing => {
                let lost = self.call.lost;
                self.answers(Answer::NotHeld(lost))
            }
            _ => self.answers(Answer::NotHeld(found)),
        }
    }

    /// The mark of the seat's next grant.
    pub fn next_mark(&self) -> u64
        ensures { result ≡ next_mark self.now }
    {
        Mark::Granted(Grant {
            seat: self.seat,
            number: self.last.saturating_add(1),
        })
        .word()
    }

    /// What the object that is granted lies in.
    pub fn kind_got(&self) -> Kind
        ensures { result ≡ kind_got self.now.call self.now.call.served }
    {
        match self.call.served {
            Served::Small { class } => Kind::Slab(class),
            Served::Large { .. } => Kind::Large {
                first: self.call.block.first,
                granules: self.call.block.granules,
            },
        }
    }

    fn object_got(&self, unit: u64) -> Object
        ensures { result ≡ object_got self.now unit }
    {
        let region = RegionWord::of_word(self.call.region);
        Object {
            number: region.number,
            offset: region.offset_of(unit),
            unit,
            mark: self.next_mark(),
            kind: self.kind_got(),
        }
    }

    /// An object was granted: it is the answer, or takes another's place.
    pub fn has_got(&mut self, unit: u64) -> Turn
        ensures { (self.new, result) ≡ got self.old unit }
    {
        let object = self.object_got(unit);
        self.last = self.last.saturating_add(1);
        if replaces(self.call.request) {
            self.call.new = object;
            return self.ends(Stage::Replacing);
        }
        let answer = self.got_of(object);
        self.answers(answer)
    }

    pub fn look_call(&self) -> LookCall
        ensures { result ≡ look_call self.now }
    {
        LookCall {
            number: self.call.old.number,
            offset: self.call.old.offset,
            reason: look_reason(self.call.request),
        }
    }

    pub fn told_look(&mut self, at: LookAt, found: u64) -> Turn
        ensures { (self.new, result) ≡ look_learn_of self.old at found }
    {
        match at.told(self.look_call(), found) {
            LookNext::Goes(next) => self.goes(At::Look(next)),
            LookNext::Held {
                unit,
                mark,
                kind,
                base,
            } => {
                self.call.old.unit = unit;
                self.call.old.mark = mark;
                self.call.old.kind = kind;
                self.is_held(base)
            }
            LookNext::Differs => self.answers(Answer::NoPool),
            LookNext::NotHeld(found) => {
                let answer = not_held_as(self.call.request, found);
                self.answers(answer)
            }
        }
    }

    /// An object is held at the place.
    fn is_held(&mut self, base: u64) -> Turn
        ensures { (self.new, result) ≡ held self.old base }
    {
        match self.call.request {
            Request::Msize { .. } => {
                let usable = usable_of(self.call.old.kind, self.call.old.unit);
                self.answers(Answer::Size(usable))
            }
            Request::Identify { .. } => {
                let pool = self.key.pool;
                self.answers(Answer::Pool(pool))
            }
            Request::Realloc { size, .. } => self.decides(size, None, base),
            Request::AlignedRealloc {
                size,
                alignment,
                ..
            } => self.decides(size, Some(alignment), base),
            _ => self.ends(Stage::Ending),
        }
    }

    pub fn told_end(&mut self, at: EndAt, found: u64) -> Turn
        ensures { (self.new, result) ≡ end_learn_of self.old at found }
    {
        match at.told(self.end_call(), found) {
            EndNext::Goes(next) => self.goes(At::End(next)),
            EndNext::Own => self.frees_own(),
            EndNext::Other => self.goes(At::Post(PostAt::Push(PushAt::Look))),
            EndNext::Large => {
                self.call.block = block_in(self.ended_object().kind);
                self.goes(At::Large(LargeAt::Tick))
            }
            EndNext::NotHeld(found) => self.loses_end(found),
        }
    }

    /// The object is the newest private one of its slab; a slab without a held object ends.
    fn frees_own(&mut self) -> Turn
        ensures { (self.new, result) ≡ freed_own self.old }
    {
        let unit = self.ended_object().unit;
        let slab = slab_of(unit);
        let Some(mut kept) = self.heap.slabs.find(slab) else {
            return self.has_ended();
        };
        kept.free(unit);
        self.heap.slabs.replace(kept);
        if kept.is_unused() {
            return self.goes(At::Small(SmallAt::Empty { slab }));
        }
        self.has_ended()
    }

    pub fn post_call(&self) -> PostCall
        ensures { result ≡ post_call self.now }
    {
        let unit = self.ended_object().unit;
        PostCall {
            unit,
            slab: slab_of(unit),
        }
    }

    pub fn told_post(&mut self, at: PostAt, found: u64) -> Turn
        ensures { (self.new, result) ≡ post_learn_of self.old at found }
    {
        match at.told(found) {
            PostNext::Goes(next) => self.goes(At::Post(next)),
            PostNext::Listed => self.has_ended(),
            PostNext::Owed => self.goes(At::Mail(MailAt::Next)),
        }
    }

    pub fn mail_call(&self) -> MailCall
        ensures { result ≡ mail_call self.now }
    {
        MailCall {
            slab: slab_of(self.ended_object().unit),
        }
    }

    pub fn told_mail(&mut self, at: MailAt, found: u64) -> Turn
        ensures { (self.new, result) ≡ mail_learn_of self.old at found }
    {
        match at.told(found) {
            MailNext::Goes(next) => self.goes(At::Mail(next)),
            MailNext::Mailed => self.has_ended(),
        }
    }
}
