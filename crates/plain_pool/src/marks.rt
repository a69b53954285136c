//! What stands at each unit of 8 bytes of the region.
ghost use Rattle.std.specs.Prelude.{◌≡◌};

/// The mark of a unit. This project's own, in the place of the free lists in memory of oneTBB's
/// `src/tbbmalloc/frontend.cpp` (`FreeObject`).
#[derive(Clone, Copy)]
pub enum Mark {
    /// No object that was handed out begins here, or its slab is no longer one.
    Blank,
    /// An object begins here that is held under this number.
    Granted(u64),
    /// A private object begins here; the next one of its slab has this number in the slab.
    Link(Option<u32>),
}

impl Mark {
    ghost use Rattle.plain_pool.specs.Marks.{number_in, link_in};

    /// The number under which the object is held, where one is.
    pub fn number(self) -> Option<u64>
        ensures { result ≡ number_in self }
    {
        match self {
            Mark::Granted(number) => Some(number),
            Mark::Blank | Mark::Link(_) => None,
        }
    }

    /// The private object that comes next, where there is one.
    pub fn link(self) -> Option<u32>
        ensures { result ≡ link_in self }
    {
        match self {
            Mark::Link(next) => next,
            Mark::Blank | Mark::Granted(_) => None,
        }
    }
}
