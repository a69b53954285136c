//! A source that keeps what was read of another, so that a refused line can be shown. This project's own.
ghost use Rattle.std.specs.Prelude.{◌≡◌, []};

use pool_types::{Failed, Source};
use std::alloc::Global;

/// A source, and what was read of it, as far as there is memory.
#[derive(Drop)]
pub struct Kept<S: Source> {
    inner: S,
    bytes: Vec<u8>,
}

impl<S: Source> Kept<S> {
    /// Nothing was read yet.
    pub fn of(alloc: Global, inner: S) -> Self
        ensures inner { result.inner ≡ inner }
        ensures bytes { result.bytes.items ≡ [] }
    {
        Kept {
            inner,
            bytes: Vec::new(alloc),
        }
    }

    /// What was read.
    pub fn bytes(&self) -> &[u8]
        ensures { result.now ≡ self.now.bytes.items }
    {
        self.bytes.as_slice()
    }

    /// Keeps the front of what was read, where there is memory for it.
    fn keep(&mut self, read: &[u8], count: usize)
        ensures { self.new.inner ≡ self.old.inner }
    {
        if let Some(front) = read.get(..count) {
            let _kept = self.bytes.extend_from_slice(front);
        }
    }
}

impl<S: Source> Source for Kept<S> {
    ghost left = { λ s. S.left s.inner };

    ghost faults = { λ s. S.faults s.inner };

    fn read(&mut self, buf: &mut [u8]) -> Result<usize, Failed> {
        match self.inner.read(buf) {
            Ok(count) => {
                self.keep(buf, count);
                Ok(count)
            }
            Err(Failed) => Err(Failed),
        }
    }
}
