//! The partition of a pool's bytes among their holders.
ghost use Rattle.std.specs.Prelude.{◌↔◌, IsTrue, ◌≡◌, ◌≤◌, ◌-◌, ◌^◌, None, MatchOption, OnErr, OnOk, All};
ghost use Rattle.pool_types.specs.declared.values.Place.{Place};
ghost use Rattle.part_model.specs.Holding.{AreApart, AreWhole, IsWhole, CanMove, IsFirstRefused, after_parts};
ghost use Rattle.part_model.specs.Apply.{Answers};
ghost use Rattle.part_model.specs.Stretches.{holder_at, IsSound};
ghost use Rattle.part_model.specs.Totals.{bytes_held, totals_of};

use crate::holders::{Holder, is_lawful_pair};
use crate::moves::{Move, Part};
use crate::stretches::{Stretch, after_parts, first_elsewhere, holder_at};
use crate::totals::{Totals, are_countable, totals_of};
use pool_types::Place;
use std::alloc::Global;
use std::marker::Model;

/// Why a move was not made.
#[derive(Clone, Copy, Debug, PartialEq, Eq)]
pub enum ApplyError {
    /// The move has a part whose pair of holders isn't lawful for the seat, or that wants a byte where it isn't. `byte`
    /// is the first such byte, by the order of the parts and then by offset; of a part with an unlawful pair it is the
    /// first of all. `held` is where that byte is, and `wanted` is where the part wants it.
    Unlawful {
        byte: Place,
        held: Option<Holder>,
        wanted: Option<Holder>,
    },
    /// The move could be made, but there was no memory to note it.
    NoMemory,
}

/// Which holder has each byte of the pool's live regions (an ownership map). Contracts see it as a list of stretches,
/// and speak of it by `holder_at`, which gives None at a byte that is in no live region. This project's own.
#[derive(Drop)]
pub struct Partition {
    stretches: Vec<Stretch>,
}

impl Model for Partition {
    ghost use Rattle.std.specs.Prelude.{List};
    ghost use Rattle.part_model.specs.declared.stretches.Stretch.{Stretch};
    ghost use Rattle.part_model.specs.Stretches.{AreStretches};

    ghost Value = { List Stretch };

    ghost view = { λ p. p.stretches.items };

    ghost invariant = { λ p. AreStretches p.stretches.items };
}

/// The first byte that keeps a part from being moved.
fn first_refused(stretches: &[Stretch], seat: u8, part: &Part) -> Option<Place>
    requires sound { All IsSound stretches.now }
    requires whole { IsWhole part.now.range }
    ensures { MatchOption result (CanMove seat (holder_at stretches.now) part.now)
        (λ byte. IsFirstRefused seat (holder_at stretches.now) part.now byte) }
{
    if !is_lawful_pair(seat, part.from, part.to) {
        return Some(part.range.place);
    }
    first_elsewhere(stretches, &part.range, part.from)
}

/// Whether all parts can be moved.
fn judge(stretches: &[Stretch], seat: u8, parts: &[Part]) -> Result<(), ApplyError>
    requires sound { All IsSound stretches.now }
    requires whole { AreWhole parts.now }
    ensures { Answers seat parts.now (holder_at stretches.now) result }
{
    for part in parts {
        if let Some(byte) = first_refused(stretches, seat, part) {
            return Err(ApplyError::Unlawful {
                byte,
                held: holder_at(stretches, &byte),
                wanted: part.from,
            });
        }
    }
    Ok(())
}

impl Partition {
    /// No live region. It takes no memory.
    pub fn empty(alloc: Global) -> Partition
        ensures { (byte : Place) → holder_at result byte ≡ None }
    {
        Partition {
            stretches: Vec::new(alloc),
        }
    }

    /// Moves the parts of a move, all of them or none; nothing is changed on an error. It judges by stretches of one
    /// holder and never byte by byte, so a part of 8 MiB costs no more than one of 8 bytes.
    pub fn apply(&mut self, alloc: Global, m: &Move) -> Result<(), ApplyError>
        requires whole { AreWhole m.now.parts.items }
        requires apart { AreApart m.now.parts.items }
        ensures judged { Answers m.now.seat m.now.parts.items (holder_at self.old) result }
        ensures moved { OnOk result ((byte : Place) → holder_at self.new byte
            ≡ after_parts (holder_at self.old) m.now.parts.items byte) }
        ensures unchanged { OnErr result (self.new ≡ self.old) }
    {
        let parts = m.parts.as_slice();
        judge(self.stretches.as_slice(), m.seat, parts)?;
        match after_parts(alloc, self.stretches.as_slice(), parts) {
            Ok(next) => {
                self.stretches = next;
                Ok(())
            }
            Err(_) => Err(ApplyError::NoMemory),
        }
    }

    /// Whether the bytes of the live regions are few enough to be counted.
    pub fn can_count(&self) -> bool
        ensures { IsTrue result ↔ (bytes_held (holder_at self.now) ≤ 2 ^ 64 - 1) }
    {
        are_countable(self.stretches.as_slice())
    }

    /// How many regions are live, how many bytes they have, and how many of these each kind of holder has. A region is
    /// live as long as one of its bytes has a holder: from the first move that brings bytes of it to the one that takes
    /// the last away. Its bytes are those that have a holder.
    pub fn totals(&self) -> Totals
        requires { bytes_held (holder_at self.now) ≤ 2 ^ 64 - 1 }
        ensures { result ≡ totals_of (holder_at self.now) }
    {
        totals_of(self.stretches.as_slice())
    }
}

#[cfg(test)]
mod tests;
