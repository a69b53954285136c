//! How a call begins, and how an object is got in another's place.

ghost use Rattle.std.specs.Prelude.{◌≡◌};
ghost use Rattle.step_local.specs.Getting.{good_of, served_as, refusal_of, getting_as, getting, getting_or_null};
ghost use Rattle.step_local.specs.Getting.{suits_alignment, stays, decided, ready, begun_get, is_looked_at};
ghost use Rattle.step_local.specs.Getting.{looking_at, begun_look, begun_leave, begun_realloc, begun_aligned};
ghost use Rattle.step_local.specs.Getting.{begun_at, begun_as, begun};
ghost use Rattle.step_local.specs.Getting.{heap_begun, pool_begun, reset_begun_as, reset_begun};
ghost use Rattle.heap_slabs.specs.Heaps.{next_to_leave};

use crate::frames::{At, LargeAt, Local, Object, Reset, ResetStage, Served, Stage, Tried};
use crate::objects::{not_held_as, usable_of};
use heap_slabs::Leaving;
use orphans::AdoptAt;
use pool_types::limits::REGION_NUMBERS;
use pool_types::{Answer, Found, InCall, NullCause, Place, Request, Turn};
use public_list::LookAt;
use size_classes::request::{served, served_plain};
use word_codes::Kind;

/// A seat's grants have numbers up to this.
const LAST_GRANT: u64 = 36028797018963967;

/// What a request is served as; none where it is bad.
fn good(wanted: size_classes::Served) -> Option<Served>
    ensures { result ≡ good_of wanted }
{
    match wanted {
        size_classes::Served::Small(class) => Some(Served::Small {
            class: class.index(),
        }),
        size_classes::Served::Large {
            granules,
            alignment,
        } => Some(Served::Large {
            granules,
            alignment,
        }),
        size_classes::Served::Bad => None,
    }
}

/// What so many bytes are served as, at a multiple of the alignment where one is asked; none where the request is bad.
fn served_as(size: u64, alignment: Option<u64>) -> Option<Served>
    ensures { result ≡ served_as size alignment }
{
    match alignment {
        Some(alignment) => good(served(size, alignment)),
        None => good(served_plain(size)),
    }
}

/// Whether an address suits the alignment that is asked.
fn suits_alignment(address: u64, alignment: Option<u64>) -> bool
    ensures { result ≡ suits_alignment address alignment }
{
    match alignment {
        Some(alignment) => alignment != 0 && address % alignment == 0,
        None => true,
    }
}

impl Local {
    /// Why nothing is got, where the request and the local decide it: a bad request, a seat's last number, or a block
    /// that no region of the pool has room for.
    fn refusal_of(&self, wanted: Option<Served>) -> Option<NullCause>
        ensures { result ≡ refusal_of self.now wanted }
    {
        match wanted {
            None => Some(NullCause::BadRequest),
            Some(_) if self.last >= LAST_GRANT => Some(NullCause::NumbersSpent),
            Some(Served::Large { granules, .. }) if granules >= u64::from(self.key.span) => {
                Some(NullCause::TooLarge { granules })
            }
            Some(_) => None,
        }
    }

    fn gets_as(&mut self, served: Served)
        ensures { self.new ≡ getting_as self.old served }
    {
        self.call.stage = Stage::Getting;
        self.call.served = served;
        self.call.tried = Tried::Nothing;
        self.call.missed = false;
    }

    /// An object is to be got.
    fn gets(&mut self, served: Served) -> Turn
        ensures { (self.new, result) ≡ getting self.old served }
    {
        self.gets_as(served);
        match served {
            Served::Small { class } => self.gets_small(class),
            Served::Large { .. } => self.goes(At::Large(LargeAt::Tick)),
        }
    }

    fn gets_or_null(&mut self, wanted: Option<Served>) -> Turn
        ensures { (self.new, result) ≡ getting_or_null self.old wanted }
    {
        if let Some(cause) = self.refusal_of(wanted) {
            return self.answers(Answer::Null(cause));
        }
        match wanted {
            Some(served) => self.gets(served),
            None => self.answers(Answer::Null(NullCause::BadRequest)),
        }
    }

    /// Whether an object stays where it is.
    fn stays(&self, size: u64, alignment: Option<u64>, base: u64) -> bool
        ensures { result ≡ stays self.now size alignment base }
    {
        let old = self.call.old;
        let address = base.saturating_add(old.offset);
        size <= usable_of(old.kind, old.unit) && suits_alignment(address, alignment)
    }

    /// A realloc of an object that is held: to no bytes it is freed, one with room stays, another is got in its place.
    pub fn decides(&mut self, size: u64, alignment: Option<u64>, base: u64) -> Turn
        ensures { (self.new, result) ≡ decided self.old size alignment base }
    {
        if size == 0 {
            return self.ends(Stage::Ending);
        }
        if self.stays(size, alignment, base) {
            let answer = self.got_of(self.call.old);
            return self.answers(answer);
        }
        self.gets_or_null(served_as(size, alignment))
    }

    /// The call makes no step.
    fn is_ready(&mut self, answer: Answer)
        ensures { self.new ≡ ready self.old answer }
    {
        self.at = At::Ready(answer);
    }

    fn begins_get(&mut self, wanted: Option<Served>)
        ensures { self.new ≡ begun_get self.old wanted }
    {
        if let Some(cause) = self.refusal_of(wanted) {
            self.is_ready(Answer::Null(cause));
            return;
        }
        match wanted {
            Some(served) => {
                let _ = self.gets(served);
            }
            None => self.is_ready(Answer::Null(NullCause::BadRequest)),
        }
    }

    /// A place of another pool, or of a region that no pool has, is looked at by no step.
    fn is_looked_at(&self, place: Place) -> bool
        ensures { result ≡ is_looked_at self.now place }
    {
        place.pool == self.key.pool && u64::from(place.region) < REGION_NUMBERS
    }

    fn looks_at(&mut self, place: Place)
        ensures { self.new ≡ looking_at self.old place }
    {
        self.call.stage = Stage::Looking;
        self.call.old = Object {
            number: u64::from(place.region),
            offset: place.offset,
            unit: 0,
            mark: 0,
            kind: Kind::Nothing,
        };
        self.at = At::Look(LookAt::Region);
    }

    fn begins_look(&mut self, request: Request, place: Place)
        ensures { self.new ≡ begun_look self.old request place }
    {
        if self.is_looked_at(place) {
            self.looks_at(place);
        } else {
            self.is_ready(not_held_as(request, Found::NoPlace));
        }
    }

    fn begins_leave(&mut self)
        ensures { self.new ≡ begun_leave self.old }
    {
        self.call.stage = Stage::Leaving;
        match self.heap.next_to_leave() {
            Leaving::Nothing => self.is_ready(Answer::Exited),
            _ => {
                let _ = self.leaves();
            }
        }
    }

    /// A realloc: of null it gets, else it looks at the place first.
    fn begins_realloc(&mut self, request: Request, place: Option<Place>, wanted: Option<Served>)
        ensures { self.new ≡ begun_realloc self.old request place wanted }
    {
        match place {
            Some(place) => self.begins_look(request, place),
            None => self.begins_get(wanted),
        }
    }

    /// An aligned realloc, whose alignment is judged before its place is looked at.
    fn begins_aligned(&mut self, request: Request, place: Option<Place>, size: u64, alignment: u64)
        ensures { self.new ≡ begun_aligned self.old request place size alignment }
    {
        if alignment.is_power_of_two() {
            self.begins_realloc(request, place, served_as(size, Some(alignment)));
        } else {
            self.is_ready(Answer::Null(NullCause::BadRequest));
        }
    }

    /// A question or a free: of null it is answered so.
    fn begins_at(&mut self, request: Request, place: Option<Place>, of_null: Answer)
        ensures { self.new ≡ begun_at self.old request place of_null }
    {
        match place {
            Some(place) => self.begins_look(request, place),
            None => self.is_ready(of_null),
        }
    }

    fn begins_as(&mut self, request: Request)
        ensures { self.new ≡ begun_as self.old request }
    {
        match request {
            Request::Malloc { size } => self.begins_get(served_as(size, None)),
            Request::Aligned { size, alignment } => {
                self.begins_get(served_as(size, Some(alignment)));
            }
            Request::Realloc { place, size } => {
                self.begins_realloc(request, place, served_as(size, None));
            }
            Request::AlignedRealloc {
                place,
                size,
                alignment,
            } => self.begins_aligned(request, place, size, alignment),
            Request::Free { place } => self.begins_at(request, place, Answer::False),
            Request::Msize { place } => self.begins_at(request, place, Answer::Size(0)),
            Request::Identify { place } => self.begins_at(request, place, Answer::NoPool),
            Request::Exit => self.begins_leave(),
        }
    }

    /// Begins a call. `InCall` is the answer exactly where one is begun and has no answer yet; then nothing changes.
    pub fn begin(&mut self, request: Request) -> Result<(), InCall>
        ensures { (self.new, result) ≡ begun self.old request }
    {
        match self.at {
            At::Idle => {
                self.call.request = request;
                self.begins_as(request);
                Ok(())
            }
            _ => Err(InCall { seat: self.seat }),
        }
    }

    /// A heap that keeps nothing makes no step.
    fn begins_heap(&mut self)
        ensures { self.new ≡ heap_begun self.old (next_to_leave self.old.heap) }
    {
        match self.heap.next_to_leave() {
            Leaving::Nothing => self.is_ready(Answer::Exited),
            _ => {
                let _ = self.gives_heap(None);
            }
        }
    }

    fn begins_pool(&mut self)
        ensures { self.new ≡ pool_begun self.old }
    {
        self.fetch.class = 0;
        self.at = At::Adopt(AdoptAt::Take);
    }

    fn resets_as(&mut self, reset: Reset)
        ensures { self.new ≡ reset_begun_as self.old reset }
    {
        match reset {
            Reset::Heap => {
                self.is_resetting(ResetStage::Heap { class: None });
                self.begins_heap();
            }
            Reset::Pool => {
                self.is_resetting(ResetStage::Orphans { rest: None });
                self.begins_pool();
            }
        }
    }

    /// Begins a reset, which goes on by turns as a call does; its last turn is done with `Exited`, the answer of a
    /// heap that keeps nothing any more. It is for a pool of which no seat has a call: first the heap of each seat,
    /// and then, as any one seat, all else. The clock, the seats' numbers and the regions stand.
    ///
    /// `InCall` is the answer exactly where the seat has a call, or a reset, that is not done; then nothing changes.
    pub fn begin_reset(&mut self, reset: Reset) -> Result<(), InCall>
        ensures { (self.new, result) ≡ reset_begun self.old reset }
    {
        match self.at {
            At::Idle => {
                self.resets_as(reset);
                Ok(())
            }
            _ => Err(InCall { seat: self.seat }),
        }
    }
}
