//! The bytes of a slab, by their holders: its head and its rest, and its private and its public objects.

ghost use Rattle.std.specs.Prelude.{◌≡◌};
ghost use Rattle.size_classes.specs.Layout.{head_bytes};
ghost use Rattle.word_totals.specs.Slabs.{kept_by, slab_record, newest_public, linked_bytes, rest_bytes, with_slab};
ghost use Rattle.word_totals.specs.Slabs.{with_begun, joined_by, joined_bytes};

use crate::chains::linked_objects;
use crate::middle::Amid;
use crate::reading::AtRest;
use heap_slabs::HeapSlab;
use part_model::Totals;
use pool_types::geometry::SLAB_BYTES;
use pool_words::Word;
use size_classes::numbered::{objects_of, size_of};
use word_codes::{Kind, Own, Public};

/// The bytes of a slab before its objects.
fn head_bytes(class: u8) -> u64
    ensures { result ≡ head_bytes class }
{
    SLAB_BYTES.saturating_sub(objects_of(class).saturating_mul(size_of(class)))
}

/// The bytes of the objects that were not handed out, once so many were.
fn rest_bytes(class: u8, handed: u64) -> u64
    ensures { result ≡ rest_bytes class handed }
{
    objects_of(class)
        .saturating_sub(handed)
        .saturating_mul(size_of(class))
}

/// The record of a slab that its keeper has.
fn kept_by<P: AtRest>(pool: &mut P, slab: u64, own: Own) -> Option<HeapSlab>
    ensures exact { result ≡ kept_by (P.still pool.old) slab own }
    ensures same { P.still pool.new ≡ P.still pool.old }
{
    match own {
        Own::Kept(seat) => pool.record(u64::from(seat), slab),
        _ => None,
    }
}

/// The record of a slab of a class: its keeper's, and where there is none what its header says.
#[tactic(auto, unfolding(crate::specs::Slabs::slab_record))]
fn slab_record<P: AtRest>(pool: &mut P, slab: u64, class: u8) -> HeapSlab
    ensures exact { result ≡ slab_record (P.still pool.old) slab class }
    ensures same { P.still pool.new ≡ P.still pool.old }
{
    let own = Own::of_word(pool.load(Word::Own(slab)));
    match kept_by(pool, slab, own) {
        Some(kept) => kept,
        None => HeapSlab::of_header(slab, class, pool.load(Word::Header(slab))),
    }
}

fn newest_public(public: Public) -> Option<u64>
    ensures { result ≡ newest_public public }
{
    match public {
        Public::Filled(unit) => Some(unit),
        _ => None,
    }
}

/// The bytes of the objects of a class that are linked, from this one on.
#[tactic(auto, unfolding(crate::specs::Slabs::linked_bytes))]
fn linked_bytes<P: AtRest>(pool: &mut P, class: u8, first: Option<u64>) -> u64
    ensures exact { result ≡ linked_bytes (P.still pool.old) class first }
    ensures same { P.still pool.new ≡ P.still pool.old }
{
    linked_objects(pool, objects_of(class), first).saturating_mul(size_of(class))
}

/// The totals with a slab of a class. The objects that are held are not counted here.
#[tactic(auto, unfolding(crate::specs::Slabs::with_slab))]
fn with_slab<P: AtRest>(pool: &mut P, slab: u64, class: u8, totals: Totals) -> Totals
    ensures exact { result ≡ with_slab (P.still pool.old) slab class totals }
    ensures same { P.still pool.new ≡ P.still pool.old }
{
    let kept = slab_record(pool, slab, class);
    let private = linked_bytes(pool, class, kept.head);
    let given_back = newest_public(Public::of_word(pool.load(Word::Public(slab))));
    let public = linked_bytes(pool, class, given_back);
    Totals {
        head: totals.head.saturating_add(head_bytes(class)),
        rest: totals.rest.saturating_add(rest_bytes(class, kept.handed)),
        private: totals.private.saturating_add(private),
        public: totals.public.saturating_add(public),
        ..totals
    }
}

/// The totals with what begins at a granule, where that is a slab.
pub fn with_begun<P: AtRest>(pool: &mut P, granule: u64, kind: Kind, totals: Totals) -> Totals
    ensures exact { result ≡ with_begun (P.still pool.old) granule kind totals }
    ensures same { P.still pool.new ≡ P.still pool.old }
{
    match kind {
        Kind::Slab(class) => with_slab(pool, granule, class, totals),
        Kind::CachedSlab => Totals {
            slab_cache: totals.slab_cache.saturating_add(SLAB_BYTES),
            ..totals
        },
        _ => totals,
    }
}

fn joined_by<P: AtRest>(pool: &mut P, first: u64, kind: Kind) -> u64
    ensures exact { result ≡ joined_by (P.still pool.old) first kind }
    ensures same { P.still pool.new ≡ P.still pool.old }
{
    match kind {
        Kind::Slab(class) => linked_bytes(pool, class, Some(first)),
        _ => 0,
    }
}

/// The bytes that a seat has taken to join them to a slab's private objects.
#[tactic(auto, unfolding(crate::specs::Slabs::joined_bytes))]
pub fn joined_bytes<P: AtRest>(pool: &mut P, amid: Amid) -> u64
    ensures exact { result ≡ joined_bytes (P.still pool.old) amid }
    ensures same { P.still pool.new ≡ P.still pool.old }
{
    match amid {
        Amid::Joins { slab, first } => {
            let kind = Kind::of_word(pool.load(Word::Kind(slab)));
            joined_by(pool, first, kind)
        }
        _ => 0,
    }
}
