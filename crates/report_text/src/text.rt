//! A text that is written in place, entry by entry.
ghost use Rattle.std.specs.Prelude.{◌≡◌, ◌++◌, [], OnOk};
ghost use Rattle.std.specs.Fmt.{decimal};
ghost use Rattle.report_text.specs.Draft.{Draft};

use crate::report::NoMemory;
use itoa::Buffer;
use std::alloc::Global;
use std::marker::Model;

/// The texts of whole entries, and behind them what is there of the next one.
#[derive(Drop)]
pub(crate) struct Text {
    bytes: Vec<u8>,
    whole: usize,
}

impl Model for Text {
    ghost use Rattle.std.specs.Prelude.{◌≤◌, take, drop, length};
    ghost use Rattle.report_text.specs.Draft.{Draft};

    ghost Value = { Draft };

    ghost view = { λ s. record { whole = take s.whole s.bytes.items; begun = drop s.whole s.bytes.items } };

    ghost invariant = { λ s. s.whole ≤ length s.bytes.items };
}

impl Text {
    ghost use Rattle.std.specs.Prelude.{◌≡◌, ◌++◌, [], OnOk};
    ghost use Rattle.std.specs.Fmt.{decimal};
    ghost use Rattle.report_text.specs.Draft.{Draft};

    /// No entry.
    pub(crate) fn new(alloc: Global) -> Text
        ensures { result ≡ record { whole = []; begun = [] } }
    {
        Text {
            bytes: Vec::new(alloc),
            whole: 0,
        }
    }

    /// Adds a word to the entry that is begun, or nothing where memory runs out.
    pub(crate) fn word(&mut self, word: &[u8]) -> Result<(), NoMemory>
        ensures added { OnOk result (self.new.begun ≡ self.old.begun ++ word.now) }
        ensures kept { self.new.whole ≡ self.old.whole }
    {
        match self.bytes.extend_from_slice(word) {
            Ok(()) => Ok(()),
            Err(_) => Err(NoMemory),
        }
    }

    /// Adds a number.
    pub(crate) fn number(&mut self, number: u64) -> Result<(), NoMemory>
        ensures added { OnOk result (self.new.begun ≡ self.old.begun ++ decimal number) }
        ensures kept { self.new.whole ≡ self.old.whole }
    {
        let mut digits = Buffer::new();
        self.word(digits.format(number).as_bytes())
    }

    /// Adds a word, and then a number.
    pub(crate) fn worded(&mut self, word: &[u8], number: u64) -> Result<(), NoMemory>
        ensures added { OnOk result (self.new.begun ≡ self.old.begun ++ (word.now ++ decimal number)) }
        ensures kept { self.new.whole ≡ self.old.whole }
    {
        self.word(word)?;
        self.number(number)
    }

    /// The entry that was begun is whole.
    pub(crate) fn close(&mut self)
        ensures { self.new ≡ record { whole = self.old.whole ++ self.old.begun; begun = [] } }
    {
        self.whole = self.bytes.len();
    }

    /// Takes back what is there of the entry that was begun.
    pub(crate) fn cut_back(&mut self)
        ensures { self.new ≡ record { whole = self.old.whole; begun = [] } }
    {
        self.bytes.truncate(self.whole);
    }

    /// The texts of the whole entries.
    pub(crate) fn whole(&self) -> &[u8]
        ensures { result.now ≡ self.now.whole }
    {
        &self.bytes[..self.whole]
    }
}
