//! The totals of a pool after a move, by its parts alone.

ghost use Rattle.std.specs.Prelude.{◌≡◌};
ghost use Rattle.step_parts.specs.Tallies.{lessened, increased, comes_in, goes_out};
ghost use Rattle.step_parts.specs.Tallies.{regions_after, totals_after};

use part_model::{Holder, Part, Totals};

/// So many bytes fewer at a holder.
fn lessen(totals: &mut Totals, holder: Option<Holder>, bytes: u64)
    ensures { totals.new ≡ lessened totals.old holder bytes }
{
    let Some(holder) = holder else {
        return;
    };
    totals.bytes = totals.bytes.saturating_sub(bytes);
    match holder {
        Holder::Waste => totals.waste = totals.waste.saturating_sub(bytes),
        Holder::Head => totals.head = totals.head.saturating_sub(bytes),
        Holder::Rest => totals.rest = totals.rest.saturating_sub(bytes),
        Holder::Private => totals.private = totals.private.saturating_sub(bytes),
        Holder::Public => totals.public = totals.public.saturating_sub(bytes),
        Holder::Object(_) => totals.object = totals.object.saturating_sub(bytes),
        Holder::LargeHead(_) => totals.large_head = totals.large_head.saturating_sub(bytes),
        Holder::SlabCache(_) => totals.slab_cache = totals.slab_cache.saturating_sub(bytes),
        Holder::Cached(_) => totals.cached = totals.cached.saturating_sub(bytes),
        Holder::Bin => totals.bin = totals.bin.saturating_sub(bytes),
        Holder::Queue => totals.queue = totals.queue.saturating_sub(bytes),
        Holder::Hand(_) => totals.hand = totals.hand.saturating_sub(bytes),
    }
}

/// So many bytes more at a holder.
fn increase(totals: &mut Totals, holder: Option<Holder>, bytes: u64)
    ensures { totals.new ≡ increased totals.old holder bytes }
{
    let Some(holder) = holder else {
        return;
    };
    totals.bytes = totals.bytes.saturating_add(bytes);
    match holder {
        Holder::Waste => totals.waste = totals.waste.saturating_add(bytes),
        Holder::Head => totals.head = totals.head.saturating_add(bytes),
        Holder::Rest => totals.rest = totals.rest.saturating_add(bytes),
        Holder::Private => totals.private = totals.private.saturating_add(bytes),
        Holder::Public => totals.public = totals.public.saturating_add(bytes),
        Holder::Object(_) => totals.object = totals.object.saturating_add(bytes),
        Holder::LargeHead(_) => totals.large_head = totals.large_head.saturating_add(bytes),
        Holder::SlabCache(_) => totals.slab_cache = totals.slab_cache.saturating_add(bytes),
        Holder::Cached(_) => totals.cached = totals.cached.saturating_add(bytes),
        Holder::Bin => totals.bin = totals.bin.saturating_add(bytes),
        Holder::Queue => totals.queue = totals.queue.saturating_add(bytes),
        Holder::Hand(_) => totals.hand = totals.hand.saturating_add(bytes),
    }
}

/// Whether a region comes with these parts.
fn comes_in(parts: &[Part]) -> bool
    ensures { result ≡ comes_in parts.now }
{
    parts.iter().any(|part| part.from.is_none())
}

/// Whether a region leaves with these parts.
fn goes_out(parts: &[Part]) -> bool
    ensures { result ≡ goes_out parts.now }
{
    parts.iter().any(|part| part.to.is_none())
}

/// The number of regions after a move of these parts.
fn regions_after(regions: u64, parts: &[Part]) -> u64
    ensures { result ≡ regions_after regions parts.now }
{
    if comes_in(parts) {
        regions.saturating_add(1)
    } else if goes_out(parts) {
        regions.saturating_sub(1)
    } else {
        regions
    }
}

/// The totals follow a move of these parts, in time by their number. Each count stays within 64 bits.
#[tactic(auto, unfolding(crate::specs::Tallies::totals_after))]
pub fn add_parts_to(totals: &mut Totals, parts: &[Part])
    ensures { totals.new ≡ totals_after totals.old parts.now }
{
    if parts.is_empty() {
        return;
    }
    totals.regions = regions_after(totals.regions, parts);
    for part in parts {
        lessen(totals, part.from, part.range.bytes);
        increase(totals, part.to, part.range.bytes);
    }
}
