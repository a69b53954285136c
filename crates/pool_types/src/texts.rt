//! The texts that traces and reports have in common: names of threads, and places. This project's own.
ghost use Rattle.std.specs.Prelude.{◌≡◌, ◌++◌, List, ℕ, OnOk};
ghost use Rattle.pool_types.specs.Texts.{names_of, place_text};

use crate::limits::THREAD_NAME_BYTES;
use crate::values::Place;
use arrayvec::ArrayVec;
use std::io::{self, Write};

/// A thread's name: a letter A to Z, and then up to seven of A to Z, 0 to 9 and `_`.
#[derive(Default, Drop)]
pub struct ThreadName {
    pub bytes: ArrayVec<u8, THREAD_NAME_BYTES>,
}

impl ThreadName {
    /// The same name again.
    pub fn duplicate(&self) -> ThreadName
        ensures { result.bytes.items ≡ self.now.bytes.items }
    {
        let Ok(bytes) = ArrayVec::try_from(self.bytes.as_slice()) else {
            unreachable!();
        };
        ThreadName { bytes }
    }
}

/// What names threads, as a trace does.
pub trait Threads {
    /// The names as bytes, by the threads' seats.
    ghost names: { Self → List (List ℕ) };

    /// The names, by the threads' seats.
    fn threads(&self) -> &[ThreadName]
        ensures { names_of result.now ≡ names self.now };
}

/// Adds a place, as `P0.R0+128`.
pub fn add_place(text: &mut Vec<u8>, place: Place) -> io::Result<()>
    ensures { OnOk result (text.new.items ≡ text.old.items ++ place_text place) }
{
    write!(text, "P{}.R{}+{}", place.pool, place.region, place.offset)
}
