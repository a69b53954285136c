//! The office: obtaining a region, and giving one back.

ghost use Rattle.std.specs.Prelude.{◌≡◌};
ghost use Rattle.region_steps.specs.Office.{office_course, office_learn, office_gives, office_looked, office_taken, office_walled, office_entered, wall_of, given_slot, region_word_of};

use pool_types::RegionRec;
use pool_types::limits::MOST_REGIONS;
use pool_words::{Action, OfficeJob, Seen, Word};
use regions::ObtainError;
use word_codes::{FREE, Guard, RegionWord, lock_word, slot_of};

/// The word of a slot without a region.
const NO_REGION: u64 = 0;

/// The last slot of a region.
const LAST_SLOT: u64 = MOST_REGIONS as u64 - 1;

/// What the office is taken for, and the seat that takes it.
#[derive(Clone, Copy)]
pub struct OfficeCall {
    pub seat: u8,
    pub job: OfficeJob,
}

/// What the seat has when it leaves the office: a region that it entered, the cause why there is none, or nothing, since
/// it gave a region back.
#[derive(Clone, Copy)]
pub enum OfficeEnd {
    Obtained(RegionRec),
    Refused(ObtainError),
    Given,
}

/// The positions of a seat at the office.
#[derive(Clone, Copy)]
pub enum OfficeAt {
    /// Takes the office's lock.
    Lock,
    /// Loads the word of this slot, from the first to the last. `given` is the slot of the region that is to be given
    /// back, once it was found.
    Region { slot: u64, given: Option<u64> },
    /// Takes the office out of its slot; to obtain a region, the callback is called in the same step.
    Take { given: Option<u64> },
    /// A region came: stores its base,
    Base { came: RegionRec },
    /// and its word, with which it comes.
    Enter { came: RegionRec },
    /// A wall stands behind its last granule
    WallSize { came: RegionRec },
    /// and before its first.
    WallLeft { came: RegionRec },
    /// A block of its granules is in hand: it begins
    FirstSize { came: RegionRec },
    /// and ends.
    LastLeft { came: RegionRec },
    /// The region leaves, and is passed to the callback in the same step.
    Remove { given: Option<u64> },
    /// Gives the office back to its slot.
    Back { end: OfficeEnd },
    /// Frees the lock.
    Unlock { end: OfficeEnd },
}

/// Where a seat at the office goes on, or that it waits for the office, or what it leaves with.
#[derive(Clone, Copy)]
pub enum OfficeNext {
    Goes(OfficeAt),
    Waits,
    Left(OfficeEnd),
}

impl OfficeAt {
    /// The next step.
    pub fn next(self, call: OfficeCall) -> Action
        ensures { result ≡ office_course call self }
    {
        match self {
            OfficeAt::Lock => Action::Exchange {
                word: Word::OfficeLock,
                from: FREE,
                to: lock_word(call.seat),
            },
            OfficeAt::Region { slot, .. } => Action::Load(Word::Region(slot)),
            OfficeAt::Take { .. } => Action::TakeOffice(call.job),
            OfficeAt::Base { came } => {
                Action::Store(
                    Word::Base(slot_of(u64::from(came.number))),
                    came.region.base,
                )
            }
            OfficeAt::Enter { came } => {
                let word = region_word_of(came).word();
                Action::Store(Word::Region(slot_of(u64::from(came.number))), word)
            }
            OfficeAt::WallSize { came } => Action::Store(
                Word::Size(wall_of(came)),
                Guard::Wall.word(),
            ),
            OfficeAt::WallLeft { came } => {
                Action::Store(Word::Left(u64::from(came.first)), Guard::Wall.word())
            }
            OfficeAt::FirstSize { came } => {
                Action::Store(Word::Size(u64::from(came.first)), Guard::Used.word())
            }
            OfficeAt::LastLeft { came } => Action::Store(
                Word::Left(wall_of(came)),
                Guard::Used.word(),
            ),
            OfficeAt::Remove { given } => Action::Store(Word::Region(given_slot(given)), NO_REGION),
            OfficeAt::Back { .. } => Action::GiveOffice,
            OfficeAt::Unlock { .. } => Action::Store(Word::OfficeLock, FREE),
        }
    }

    /// What follows from what the step found. A `Seen` that its action does not give is read as a word of 0, and as an
    /// office that is out.
    pub fn told(self, call: OfficeCall, seen: Seen) -> OfficeNext
        ensures { result ≡ office_learn call self seen }
    {
        let at = match self {
            OfficeAt::Lock => {
                if seen.word() != FREE {
                    return OfficeNext::Waits;
                }
                OfficeAt::Region {
                    slot: 0,
                    given: None,
                }
            }
            OfficeAt::Region { slot, given } => looked(call.job, slot, given, seen.word()),
            OfficeAt::Take { given } => return taken(given, seen),
            OfficeAt::Base { came } => OfficeAt::Enter { came },
            OfficeAt::Enter { came } => OfficeAt::WallSize { came },
            OfficeAt::WallSize { came } => OfficeAt::WallLeft { came },
            OfficeAt::WallLeft { came } => walled(came),
            OfficeAt::FirstSize { came } => OfficeAt::LastLeft { came },
            OfficeAt::LastLeft { came } => entered(came),
            OfficeAt::Remove { .. } => OfficeAt::Back {
                end: OfficeEnd::Given,
            },
            OfficeAt::Back { end } => OfficeAt::Unlock { end },
            OfficeAt::Unlock { end } => return OfficeNext::Left(end),
        };
        OfficeNext::Goes(at)
    }
}

/// Whether a region's word is that of the region that is given back.
fn is_given(job: OfficeJob, word: u64) -> bool
    ensures { result ≡ office_gives job word }
{
    match job {
        OfficeJob::Obtain { .. } => false,
        OfficeJob::Give { first } => RegionWord::of_word(word).has_granule(u64::from(first)),
    }
}

/// A region's word was found: the next slot's is looked at, and behind the last one the office is taken.
fn looked(job: OfficeJob, slot: u64, given: Option<u64>, word: u64) -> OfficeAt
    ensures { result ≡ office_looked job slot given word }
{
    let given = if is_given(job, word) {
        Some(slot)
    } else {
        given
    };
    if slot < LAST_SLOT {
        OfficeAt::Region {
            slot: slot + 1,
            given,
        }
    } else {
        OfficeAt::Take { given }
    }
}

/// The office was taken, or it is out.
fn taken(given: Option<u64>, seen: Seen) -> OfficeNext
    ensures { result ≡ office_taken given seen }
{
    match seen {
        Seen::Obtained(came) => OfficeNext::Goes(OfficeAt::Base { came }),
        Seen::Refused(error) => OfficeNext::Goes(OfficeAt::Back {
            end: OfficeEnd::Refused(error),
        }),
        Seen::Given => OfficeNext::Goes(OfficeAt::Remove { given }),
        _ => OfficeNext::Waits,
    }
}

/// The walls stand; a region without a granule has no block.
fn walled(came: RegionRec) -> OfficeAt
    ensures { result ≡ office_walled came }
{
    if came.granules == 0 {
        entered(came)
    } else {
        OfficeAt::FirstSize { came }
    }
}

/// The region is entered.
fn entered(came: RegionRec) -> OfficeAt
    ensures { result ≡ office_entered came }
{
    OfficeAt::Back {
        end: OfficeEnd::Obtained(came),
    }
}

/// The index behind the region's last granule, which is its wall's.
fn wall_of(came: RegionRec) -> u64
    ensures { result ≡ wall_of came }
{
    u64::from(came.first) + u64::from(came.granules)
}

/// The slot of the region that is given back, and one that is none where no region has the block.
fn given_slot(given: Option<u64>) -> u64
    ensures { result ≡ given_slot given }
{
    match given {
        Some(slot) => slot,
        None => LAST_SLOT + 1,
    }
}

/// The word of a region's record.
fn region_word_of(came: RegionRec) -> RegionWord
    ensures { result ≡ region_word_of came }
{
    RegionWord {
        live: true,
        number: u64::from(came.number),
        first: u64::from(came.first),
        granules: u64::from(came.granules),
        waste: u64::from(came.waste),
    }
}
