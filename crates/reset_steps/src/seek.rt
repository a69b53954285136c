//! Finding the region whose number comes next: all slots are looked at.

ghost use Rattle.std.specs.Prelude.{◌≡◌};
ghost use Rattle.reset_steps.specs.Seek.{seek_begins, is_sought, comes_first, is_better, seek_best};
ghost use Rattle.reset_steps.specs.Seek.{seek_course, sought, seek_on, seek_learn};

use pool_types::limits::MOST_REGIONS;
use pool_words::{Action, Word};
use word_codes::RegionWord;

/// The last slot of a region.
const LAST_SLOT: u64 = MOST_REGIONS as u64 - 1;

/// Which number is looked for: the lowest from this one on, or the highest under this one.
#[derive(Clone, Copy)]
pub enum Seek {
    From(u64),
    Under(u64),
}

/// A search at a slot, whose region's word it loads, and the best region of the slots before.
#[derive(Clone, Copy)]
pub struct SeekAt {
    pub seek: Seek,
    pub slot: u64,
    pub best: Option<RegionWord>,
}

#[derive(Clone, Copy)]
pub enum SeekNext {
    Goes(SeekAt),
    Found(RegionWord),

    /// No region has such a number.
    Nothing,
}

impl Seek {
    /// Whether a region of this number is looked for.
    fn is_sought(self, number: u64) -> bool
        ensures { result ≡ is_sought self number }
    {
        match self {
            Seek::From(least) => number >= least,
            Seek::Under(end) => number < end,
        }
    }

    /// Whether a number comes before another.
    fn comes_first(self, number: u64, other: u64) -> bool
        ensures { result ≡ comes_first self number other }
    {
        match self {
            Seek::From(_) => number < other,
            Seek::Under(_) => number > other,
        }
    }

    /// Whether a region's number comes before that of the best one so far.
    fn is_better(self, region: RegionWord, best: Option<RegionWord>) -> bool
        ensures { result ≡ is_better self region best }
    {
        match best {
            Some(best) => self.comes_first(region.number, best.number),
            None => true,
        }
    }
}

impl SeekAt {
    /// The search, from the first slot on.
    pub fn begins(seek: Seek) -> SeekAt
        ensures { result ≡ seek_begins seek }
    {
        SeekAt {
            seek,
            slot: 0,
            best: None,
        }
    }

    /// The best of this slot's region and of those before it.
    fn best_with(self, region: RegionWord) -> Option<RegionWord>
        ensures { result ≡ seek_best self region }
    {
        if region.live
            && self.seek.is_sought(region.number)
            && self.seek.is_better(region, self.best)
        {
            Some(region)
        } else {
            self.best
        }
    }

    pub fn next(self) -> Action
        ensures { result ≡ seek_course self }
    {
        Action::Load(Word::Region(self.slot))
    }

    pub fn told(self, found: u64) -> SeekNext
        ensures { result ≡ seek_learn self found }
    {
        let best = self.best_with(RegionWord::of_word(found));
        if self.slot < LAST_SLOT {
            return SeekNext::Goes(SeekAt {
                slot: self.slot + 1,
                best,
                ..self
            });
        }
        match best {
            Some(region) => SeekNext::Found(region),
            None => SeekNext::Nothing,
        }
    }
}
