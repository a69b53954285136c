//! What is counted from the words and the seats.

ghost use Rattle.std.specs.Prelude.{◌≡◌, IfOk};
ghost use Rattle.word_totals.specs.Caching.{cache_numbers};
ghost use Rattle.word_totals.specs.Leaking.{leaks_of};
ghost use Rattle.step_core.specs.Counts.{still_of};

use crate::machine::PlainMachine;
use cache_ages::CacheNumbers;
use pool_types::{Leak, Raw};
use std::alloc::{AllocError, Global};
use word_totals::Reading;

impl<R: Raw> PlainMachine<R> {
    /// The numbers of the cache bin for blocks of so many granules. All are 0 where there is no such bin.
    pub fn cache(&self, granules: u32) -> CacheNumbers
        ensures { result ≡ cache_numbers (still_of self.now) granules }
    {
        let locals = self.locals.as_slice();
        word_totals::cache(
            &mut Reading::of(self.depot.key(), self.depot.words(), locals),
            granules,
        )
    }

    /// The objects that are held, by region and offset. The error is a want of memory.
    pub fn leaks(&self, alloc: Global) -> Result<Vec<Leak>, AllocError>
        ensures { IfOk result (λ leaks. leaks.items ≡ leaks_of (still_of self.now)) }
    {
        let locals = self.locals.as_slice();
        word_totals::leaks(
            &mut Reading::of(self.depot.key(), self.depot.words(), locals),
            alloc,
        )
    }
}
