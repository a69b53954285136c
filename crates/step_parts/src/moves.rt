//! The move of a step, whole, in room that is kept from step to step.

ghost use Rattle.std.specs.Prelude.{◌≡◌, OnOk, ◌++◌, ◌∷◌, []};
ghost use Rattle.step_local.specs.Course.{course};
ghost use Rattle.step_parts.specs.Moves.{cut_word, moved_spots, keeper_change, chain_book, moved_book};
ghost use Rattle.step_parts.specs.Moves.{entered_by, region_by};

use crate::positions::{may_move, moved_with};
use part_model::Part;
use pool_types::{Keeper, KeeperChange, RegionRec};
use pool_words::{Action, Key, Word, value};
use size_classes::Class;
use std::alloc::{AllocError, Global};
use std::marker::Model;
use step_local::Local;
use word_codes::link_of;
use word_parts::{Chain, Moved, Spot, add_moved, find_spots, first_unit, place_of};

/// What one step moves: its parts and its slabs' keepers, each by region and offset, the class of the slab that enters
/// the slab book, and the record of the region that comes. Contracts see these four.
#[derive(Drop)]
pub struct Moves {
    parts: Vec<Part>,
    book: Vec<KeeperChange>,
    entered: Option<Class>,
    region: Option<RegionRec>,
    spots: Vec<Spot>,
}

impl Model for Moves {
    ghost use Rattle.step_parts.specs.Moves.{Moving};

    ghost Value = { Moving };

    ghost view = { λ m. record { parts = m.parts.items; book = m.book.items; entered = m.entered; region = m.region } };
}

/// The word at which a cache bin's list is cut, which has the first of the blocks that are cut off.
fn cut_word(granules: u64, kept: Option<u64>) -> Word
    ensures { result ≡ cut_word granules kept }
{
    match kept {
        Some(block) => Word::CacheLink(block),
        None => Word::CacheHead(granules),
    }
}

/// The items of the chain that a step takes, in the order of their places.
fn find_moved_spots(
    spots: &mut Vec<Spot>,
    words: &[u64],
    key: &Key,
    moved: Moved,
) -> Result<(), AllocError>
    ensures { OnOk result (spots.new.items ≡ moved_spots key.now words.now moved) }
{
    match moved {
        Moved::Taken { chain, first } => find_spots(spots, words, key, chain, first),
        Moved::Cut { granules, kept } => {
            let first = link_of(value(words, key, cut_word(granules, kept)));
            find_spots(spots, words, key, Chain::Cached { granules }, first)
        }
        _ => {
            spots.clear();
            Ok(())
        }
    }
}

/// A slab, by its first unit, goes from one keeper to another.
fn keeper_change(words: &[u64], key: &Key, unit: u64, from: Keeper, to: Keeper) -> KeeperChange
    ensures { result ≡ keeper_change key.now words.now unit from to }
{
    KeeperChange {
        slab: place_of(words, key, unit),
        from,
        to,
    }
}

/// Orphans come into the hand.
fn add_orphans(
    book: &mut Vec<KeeperChange>,
    words: &[u64],
    key: &Key,
    seat: u8,
    spots: &[Spot],
) -> Result<(), AllocError>
    ensures { OnOk result (book.new.items ≡ chain_book key.now words.now seat book.old.items spots.now) }
{
    for spot in spots {
        let change = keeper_change(words, key, spot.unit, Keeper::Orphan, Keeper::Hand(seat));
        book.push(change)?;
    }
    Ok(())
}

/// The slabs that what a step moves brings to another keeper.
fn add_book(
    book: &mut Vec<KeeperChange>,
    words: &[u64],
    key: &Key,
    seat: u8,
    spots: &[Spot],
    moved: Moved,
) -> Result<(), AllocError>
    ensures { OnOk result (book.new.items ≡ moved_book key.now words.now seat book.old.items spots.now moved) }
{
    match moved {
        Moved::Kept { slab, from, to } => {
            book.push(keeper_change(words, key, first_unit(slab), from, to))?;
            Ok(())
        }
        Moved::Taken {
            chain: Chain::Orphans,
            ..
        } => add_orphans(book, words, key, seat, spots),
        _ => Ok(()),
    }
}

/// The class of the slab that enters the book.
fn entered_by(moved: Moved) -> Option<Class>
    ensures { result ≡ entered_by moved }
{
    match moved {
        Moved::SlabBegun { class, .. } => Class::of_number(class),
        _ => None,
    }
}

/// The region that comes.
fn region_by(moved: Moved) -> Option<RegionRec>
    ensures { result ≡ region_by moved }
{
    match moved {
        Moved::Comes(one) => Some(one),
        _ => None,
    }
}

impl Moves {
    ghost use Rattle.step_parts.specs.Moves.{no_moves, moving_of, moves_of};

    /// Room for a step's move. It takes no memory yet.
    pub fn make(alloc: Global) -> Moves
        ensures { result ≡ no_moves }
    {
        Moves {
            parts: Vec::new(alloc),
            book: Vec::new(alloc),
            entered: None,
            region: None,
            spots: Vec::new(alloc),
        }
    }

    /// The parts, by region and offset.
    pub fn parts(&self) -> &[Part]
        ensures { result.now ≡ self.now.parts }
    {
        self.parts.as_slice()
    }

    /// The slabs that go to another keeper, by region and offset.
    pub fn book(&self) -> &[KeeperChange]
        ensures { result.now ≡ self.now.book }
    {
        self.book.as_slice()
    }

    /// The class of the slab that enters the slab book.
    pub fn entered(&self) -> Option<Class>
        ensures { result ≡ self.now.entered }
    {
        self.entered
    }

    /// The record of the region that comes.
    pub fn region(&self) -> Option<RegionRec>
        ensures { result ≡ self.now.region }
    {
        self.region
    }

    /// Finds what the next step of a local moves: of a pool's words and the regions that it has out, both before the
    /// step, and by the number that the step finds (0 for a step that finds none). The error is a want of memory; what
    /// stands here then is of no use.
    #[tactic(auto, unfolding(crate::specs::Moves::moves_of))]
    pub fn find(
        &mut self,
        words: &[u64],
        key: &Key,
        regions: &[RegionRec],
        local: &Local,
        found: u64,
    ) -> Result<(), AllocError>
        ensures { OnOk result (self.new ≡ moves_of key.now words.now regions.now local.now found) }
    {
        self.find_with(words, key, regions, local, &local.next(), found)
    }

    /// As `find`, where the action that the step makes is known.
    #[tactic(auto, unfolding(crate::specs::Moves::moves_of), using(crate::proofs::Quiet::nothing_moves))]
    pub fn find_with(
        &mut self,
        words: &[u64],
        key: &Key,
        regions: &[RegionRec],
        local: &Local,
        action: &Action,
        found: u64,
    ) -> Result<(), AllocError>
        requires { action.now ≡ course local.now }
        ensures { OnOk result (self.new ≡ moves_of key.now words.now regions.now local.now found) }
    {
        if !may_move(&local.at) {
            self.clear();
            return Ok(());
        }
        self.follow(
            words,
            key,
            regions,
            local.seat,
            moved_with(local, action, found),
        )
    }

    /// Nothing moves.
    fn clear(&mut self)
        ensures { self.new ≡ no_moves }
    {
        self.parts.clear();
        self.book.clear();
        self.entered = None;
        self.region = None;
    }

    /// Finds what moves where this does.
    fn follow(
        &mut self,
        words: &[u64],
        key: &Key,
        regions: &[RegionRec],
        seat: u8,
        moved: Moved,
    ) -> Result<(), AllocError>
        ensures { OnOk result (self.new ≡ moving_of key.now words.now regions.now seat moved) }
    {
        self.clear();
        self.entered = entered_by(moved);
        self.region = region_by(moved);
        find_moved_spots(&mut self.spots, words, key, moved)?;
        let spots = self.spots.as_slice();
        add_moved(&mut self.parts, words, key, regions, seat, spots, moved)?;
        add_book(&mut self.book, words, key, seat, spots, moved)
    }
}
