//! The journal's entries of one step, in room that is kept from step to step.

ghost use Rattle.std.specs.Prelude.{◌≡◌, ◌≤◌, ◌<◌, ◌++◌, ◌∷◌, OnOk, OnErr, IfOk, [], take, drop, length};
ghost use Rattle.std.specs.Prelude.{vec_capacity};
ghost use Rattle.step_parts.specs.Journal.{most_parts, is_last_scan, looks_in, looks_at_bin, bare_entry, part_entry};
ghost use Rattle.step_parts.specs.Journal.{book_entry, part_entries, book_entries, or_bare, with_signs};
ghost use Rattle.step_parts.specs.Journal.{entries_of};

use crate::moves::Moves;
use arrayvec::ArrayVec;
use backend_bins::ScanStep;
use part_model::{Journaled, Part};
use pool_types::{Answer, KeeperChange, Row};
use std::alloc::{AllocError, Global};
use std::marker::Model;
use step_local::{At, Local, Tries};
use word_codes::{END, FREE};

/// The most parts of an entry.
const MOST_PARTS: usize = 4;

/// Which step an entry is of: its number, the seat, and the kind of step.
#[derive(Clone, Copy)]
pub struct StepName {
    pub step: u64,
    pub seat: u8,
    pub row: Row,
}

/// The entries of one step. Contracts see the list.
#[derive(Drop)]
pub struct Journal {
    entries: Vec<Journaled>,
    fresh: Vec<Journaled>,
}

impl Model for Journal {
    ghost use Rattle.std.specs.Prelude.{◌≤◌, List, vec_capacity};
    ghost use Rattle.part_model.specs.declared.journal.Journaled.{Journaled as Entry};

    ghost Value = { List Entry };

    ghost view = { λ j. j.entries.items };

    ghost invariant = { λ j. (1 ≤ vec_capacity j.entries) × (1 ≤ vec_capacity j.fresh) };
}

/// Whether the scan is the call's last one, which comes after all cached blocks were released.
fn is_last_scan(tries: Tries) -> bool
    ensures { result ≡ is_last_scan tries }
{
    match tries {
        Tries::Hard => true,
        Tries::First | Tries::Queue | Tries::Soft => false,
    }
}

/// A look at a bin finds its list empty without the lock, or takes the lock.
fn looks_in(step: ScanStep, found: u64) -> bool
    ensures { result ≡ looks_in step found }
{
    match step {
        ScanStep::Peek => found == END,
        ScanStep::Lock => found == FREE,
        ScanStep::Head
        | ScanStep::Length { .. }
        | ScanStep::Win { .. }
        | ScanStep::Next { .. }
        | ScanStep::Out { .. }
        | ScanStep::Unlock { .. } => false,
    }
}

/// Whether the step is a look at a bin in a call's last scan: such a step has an entry though it moves nothing.
pub fn looks_at_bin(local: &Local, found: u64) -> bool
    ensures { result ≡ looks_at_bin local.now found }
{
    match local.at {
        At::Scan(at) => is_last_scan(local.ask.tries) && looks_in(at.step, found),
        _ => false,
    }
}

/// An entry that says which step it is of, and no more.
fn bare_entry(name: StepName) -> Journaled
    ensures { result ≡ bare_entry name }
{
    Journaled {
        step: name.step,
        seat: name.seat,
        row: name.row,
        parts: ArrayVec::new(),
        book: None,
        entered: None,
        region: None,
        answer: None,
    }
}

/// Puts the first of these parts into an entry in place of its own, as many as it has room for.
fn fill(entry: &mut Journaled, parts: &[Part])
    ensures { entry.new ≡ record entry.old { parts = record { items = take most_parts parts.now } } }
{
    entry.parts.clear();
    for part in &parts[..parts.len().min(MOST_PARTS)] {
        entry.parts.push(*part);
    }
}

/// The parts behind them.
fn behind_first(parts: &[Part]) -> &[Part]
    ensures exact { result.now ≡ drop most_parts parts.now }
    ensures fewer { 0 < length parts.now → length result.now < length parts.now }
{
    &parts[parts.len().min(MOST_PARTS)..]
}

/// Adds the entry of the first of these parts. It is filled where it lies.
#[tactic(auto, using(crate::proofs::Entries::last_replaced))]
fn add_part_entry(
    entries: &mut Vec<Journaled>,
    name: StepName,
    parts: &[Part],
) -> Result<(), AllocError>
    ensures items { OnOk result
        (entries.new.items ≡ entries.old.items ++ part_entry name (take most_parts parts.now) ∷ []) }
    ensures capacity { vec_capacity entries.old ≤ vec_capacity entries.new }
{
    let last = entries.len();
    entries.push(bare_entry(name))?;
    fill(&mut entries[last], parts);
    Ok(())
}

/// The entry of a slab that goes to another keeper.
fn book_entry(name: StepName, change: KeeperChange) -> Journaled
    ensures { result ≡ book_entry name change }
{
    Journaled {
        book: Some(change),
        ..bare_entry(name)
    }
}

/// Adds the entries of these parts.
#[tactic(auto, using(crate::proofs::Entries::part_entries_first))]
fn add_part_entries(
    entries: &mut Vec<Journaled>,
    name: StepName,
    parts: &[Part],
) -> Result<(), AllocError>
    ensures items { OnOk result (entries.new.items ≡ part_entries name entries.old.items parts.now) }
    ensures capacity { vec_capacity entries.old ≤ vec_capacity entries.new }
{
    let mut rest = parts;
    while !rest.is_empty() {
        add_part_entry(entries, name, rest)?;
        rest = behind_first(rest);
    }
    Ok(())
}

/// Adds the entries of these slabs that go to other keepers.
fn add_book_entries(
    entries: &mut Vec<Journaled>,
    name: StepName,
    book: &[KeeperChange],
) -> Result<(), AllocError>
    ensures items { OnOk result (entries.new.items ≡ book_entries name entries.old.items book.now) }
    ensures capacity { vec_capacity entries.old ≤ vec_capacity entries.new }
{
    for change in book {
        entries.push(book_entry(name, *change))?;
    }
    Ok(())
}

/// A step that has no entry yet gets one, if it is a look.
fn add_bare(entries: &mut Vec<Journaled>, name: StepName, looks: bool) -> Result<(), AllocError>
    ensures items { OnOk result (entries.new.items ≡ or_bare name looks entries.old.items) }
    ensures capacity { vec_capacity entries.old ≤ vec_capacity entries.new }
{
    if looks && entries.is_empty() {
        entries.push(bare_entry(name))?;
    }
    Ok(())
}

/// The first entry tells which slab enters the book, and which region comes.
fn sign(entries: &mut [Journaled], moves: &Moves)
    ensures { entries.new ≡ with_signs moves.now.entered moves.now.region entries.old }
{
    if let Some(first) = entries.first_mut() {
        first.entered = moves.entered();
        first.region = moves.region();
    }
}

/// Writes the entries of a step.
#[tactic(auto, unfolding(crate::specs::Journal::entries_of))]
fn write(
    entries: &mut Vec<Journaled>,
    name: StepName,
    looks: bool,
    moves: &Moves,
) -> Result<(), AllocError>
    ensures items { OnOk result (entries.new.items ≡ entries_of name looks moves.now) }
    ensures capacity { vec_capacity entries.old ≤ vec_capacity entries.new }
{
    entries.clear();
    add_part_entries(entries, name, moves.parts())?;
    add_book_entries(entries, name, moves.book())?;
    add_bare(entries, name, looks)?;
    sign(entries.as_mut_slice(), moves);
    Ok(())
}

impl Journal {
    ghost use Rattle.step_parts.specs.Journal.{entries_of, with_answer};

    /// No entry, with room for one.
    pub fn make(alloc: Global) -> Result<Journal, AllocError>
        ensures { IfOk result (λ journal. journal ≡ []) }
    {
        Ok(Journal {
            entries: Vec::with_capacity(alloc, 1)?,
            fresh: Vec::with_capacity(alloc, 1)?,
        })
    }

    /// The entries of the last step.
    pub fn entries(&self) -> &[Journaled]
        ensures { result.now ≡ self.now }
    {
        self.entries.as_slice()
    }

    /// Takes the entries of the next step in place of the last one's: of what it moves, and of whether it looks at a
    /// bin in vain. A step that does neither has none. After an error, which is a want of memory, nothing has changed.
    #[tactic(auto, unfolding(crate::specs::Journal::entries_of))]
    pub fn record(&mut self, name: StepName, looks: bool, moves: &Moves) -> Result<(), AllocError>
        ensures ok { OnOk result (self.new ≡ entries_of name looks moves.now) }
        ensures err { OnErr result (self.new ≡ self.old) }
    {
        if !looks && moves.parts().is_empty() && moves.book().is_empty() {
            self.entries.clear();
            return Ok(());
        }
        write(&mut self.fresh, name, looks, moves)?;
        std::mem::swap(&mut self.entries, &mut self.fresh);
        Ok(())
    }

    /// The step ends its call with this answer: its first entry has it, and a step without an entry gets one.
    #[tactic(auto, unfolding(crate::specs::Journal::with_answer))]
    pub fn answer(&mut self, name: StepName, answer: Answer)
        ensures { self.new ≡ with_answer name answer self.old }
    {
        if self.entries.is_empty() {
            self.entries.push_reserved(bare_entry(name));
        }
        self.entries[0].answer = Some(answer);
    }

    /// No step was made: it has no entries.
    pub fn clear(&mut self)
        ensures { self.new ≡ [] }
    {
        self.entries.clear();
    }
}
