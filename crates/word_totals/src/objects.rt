//! Objects that are held: the marks that name a grant.

ghost use Rattle.std.specs.Prelude.{◌≡◌};
ghost use Rattle.public_list.specs.Looking.{is_slab};
ghost use Rattle.step_local.specs.Answers.{usable_of};
ghost use Rattle.word_totals.specs.Objects.{granule_kind, head_of};

use crate::reading::AtRest;
use pool_types::geometry::{GRANULE_BYTES, UNIT_BYTES};
use pool_words::Word;
use size_classes::numbered::size_of;
use word_codes::{Kind, slab_granule};

/// How many units a granule has.
pub const GRANULE_UNITS: u64 = GRANULE_BYTES / UNIT_BYTES;

fn is_slab(kind: Kind) -> bool
    ensures { result ≡ is_slab kind }
{
    match kind {
        Kind::Slab(_) => true,
        _ => false,
    }
}

/// What the units of a granule lie in: a slab begins at the even granule at or below it.
#[tactic(auto, unfolding(crate::specs::Objects::granule_kind))]
pub fn granule_kind<P: AtRest>(pool: &mut P, granule: u64) -> Kind
    ensures exact { result ≡ granule_kind (P.still pool.old) granule }
    ensures same { P.still pool.new ≡ P.still pool.old }
{
    let even = Kind::of_word(pool.load(Word::Kind(slab_granule(granule))));
    let own = Kind::of_word(pool.load(Word::Kind(granule)));
    if is_slab(even) { even } else { own }
}

/// The usable bytes of an object that begins at a unit: those of its class, or those up to its block's end.
pub fn usable_of(kind: Kind, unit: u64) -> u64
    ensures { result ≡ usable_of kind unit }
{
    match kind {
        Kind::Slab(class) => size_of(class),
        Kind::Large { first, granules } => {
            let end = first.saturating_add(granules).saturating_mul(GRANULE_UNITS);
            end.saturating_sub(unit).saturating_mul(UNIT_BYTES)
        }
        Kind::Nothing | Kind::CachedSlab => 0,
    }
}

/// The bytes of a large object's block before the object. A small object has none.
pub fn head_of(kind: Kind, unit: u64) -> u64
    ensures { result ≡ head_of kind unit }
{
    match kind {
        Kind::Large { first, .. } => {
            let begin = first.saturating_mul(GRANULE_UNITS);
            unit.saturating_sub(begin).saturating_mul(UNIT_BYTES)
        }
        _ => 0,
    }
}
