//! Adapters over standard input and output, or any reader and writer of std. A source tells the bytes that its reader
//! tells, and standard input tells none; a sink tells none, since a flush that fails leaves open what was taken. They are
//! the trusted edge, a few lines each. This project's own.
ghost use Rattle.std.specs.Prelude.{◌≡◌, None, IfSome, IfOk, length, take, ◌<◌, ◌≤◌};
ghost use Rattle.std.specs.Io.{WritesAtMost};
ghost use Rattle.std.specs.Io.KnownBytes.{Appends, WriteAppends};
ghost use Rattle.pool_types.specs.Causes.{HasCause};

use crate::outside::{Failed, Sink, Source};
use std::io::{Read, Write};
use std::marker::Model;

/// A reader whose failed reads are counted.
#[derive(Drop)]
pub struct StandardSource<R: Read> {
    inner: R,
    faults: u64,
}

impl<R: Read> Model for StandardSource<R> {
    ghost use Rattle.std.specs.Prelude.{ℕ};

    ghost Value = { R × ℕ };

    ghost view = { λ s. (s.inner, s.faults) };
}

impl<R: Read> StandardSource<R> {
    /// No read has failed yet.
    pub fn of(inner: R) -> Self
        ensures { result ≡ (inner, 0) }
    {
        StandardSource { inner, faults: 0 }
    }
}

impl<R: Read> Source for StandardSource<R> {
    ghost left = { λ s. R.remaining s.0 };

    ghost faults = { λ s. s.1 };

    fn read(&mut self, buf: &mut [u8]) -> Result<usize, Failed> {
        match self.inner.read(buf) {
            Ok(count) => Ok(count),
            Err(_) => {
                self.faults = self.faults.saturating_add(1);
                Err(Failed)
            }
        }
    }
}

/// A writer whose failed writes are counted.
#[derive(Drop)]
pub struct StandardSink<W: Write> {
    inner: W,
    faults: u64,
}

impl<W: Write> Model for StandardSink<W> {
    ghost use Rattle.std.specs.Prelude.{ℕ};

    ghost Value = { W × ℕ };

    ghost view = { λ s. (s.inner, s.faults) };
}

impl<W: Write> StandardSink<W> {
    /// No write has failed yet.
    pub fn of(inner: W) -> Self
        ensures { result ≡ (inner, 0) }
    {
        StandardSink { inner, faults: 0 }
    }
}

/// Writes from the front of the piece, and flushes in the same call, so that what is said to be taken has left the
/// process. A writer that takes no byte of a piece that isn't empty has failed.
fn write_through<W: Write>(inner: &mut W, piece: &[u8]) -> Option<usize>
    ensures bound { IfSome result (λ count. count ≤ length piece.now) }
    ensures progress { IfSome result (λ count. 0 < length piece.now → 1 ≤ count) }
    ensures bytes { IfSome result (λ count. Appends (W.contents inner.old) (W.contents inner.new) (take count piece.now)) }
{
    let count = inner.write(piece).ok()?;
    if count == 0 && !piece.is_empty() {
        return None;
    }
    inner.flush().ok()?;
    Some(count)
}

impl<W: Write> Sink for StandardSink<W> {
    ghost taken = { λ _. None };

    ghost faults = { λ s. s.1 };

    fn write(&mut self, piece: &[u8]) -> Result<usize, Failed>
        ensures bound { WritesAtMost result piece.now }
        ensures progress { IfOk result (λ count. 0 < length piece.now → 1 ≤ count) }
        ensures bytes { WriteAppends None None result piece.now }
        ensures cause { HasCause self.old.1 self.new.1 result }
        ensures written { IfOk result (λ count. Appends (W.contents self.old.0) (W.contents self.new.0) (take count piece.now)) }
    {
        match write_through(&mut self.inner, piece) {
            Some(count) => Ok(count),
            None => {
                self.faults = self.faults.saturating_add(1);
                Err(Failed)
            }
        }
    }
}
