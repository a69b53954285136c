//! The lines of what a pool has at the end.
ghost use Rattle.std.specs.Prelude.{◌≡◌, ◌++◌, OnOk};
ghost use Rattle.pool_types.specs.Texts.{names_of};
ghost use Rattle.report_text.specs.Totals.{region_totals_text, slab_totals_text, held_totals_text, cached_totals_text, object_totals_text, block_totals_text, total_text, bin_items_text, bin_times_text, cache_text, leak_text};

use crate::entry::BinNumbers;
use crate::pieces::add_object;
use crate::report::NoMemory;
use crate::text::Text;
use part_model::Totals;
use pool_types::{Leak, ThreadName};

/// Adds the part of a pool's totals on its regions.
#[tactic(auto, unfolding(crate::specs::Totals::region_totals_text))]
fn add_region_totals(text: &mut Text, totals: Totals) -> Result<(), NoMemory>
    ensures added { OnOk result (text.new.begun ≡ text.old.begun ++ region_totals_text totals) }
    ensures kept { text.new.whole ≡ text.old.whole }
{
    let Totals {
        regions,
        bytes,
        waste,
        ..
    } = totals;
    text.worded(b" regions ", regions)?;
    text.worded(b" bytes ", bytes)?;
    text.worded(b" waste ", waste)
}

/// Adds the part on slabs.
#[tactic(auto, unfolding(crate::specs::Totals::slab_totals_text))]
fn add_slab_totals(text: &mut Text, totals: Totals) -> Result<(), NoMemory>
    ensures added { OnOk result (text.new.begun ≡ text.old.begun ++ slab_totals_text totals) }
    ensures kept { text.new.whole ≡ text.old.whole }
{
    let Totals {
        head,
        rest,
        private,
        public,
        ..
    } = totals;
    text.worded(b" head ", head)?;
    text.worded(b" rest ", rest)?;
    text.worded(b" private ", private)?;
    text.worded(b" public ", public)
}

/// Adds the part on objects.
#[tactic(auto, unfolding(crate::specs::Totals::held_totals_text))]
fn add_held_totals(text: &mut Text, totals: Totals) -> Result<(), NoMemory>
    ensures added { OnOk result (text.new.begun ≡ text.old.begun ++ held_totals_text totals) }
    ensures kept { text.new.whole ≡ text.old.whole }
{
    text.worded(b" object ", totals.object)?;
    text.worded(b" large-head ", totals.large_head)
}

/// Adds the part on what is cached.
#[tactic(auto, unfolding(crate::specs::Totals::cached_totals_text))]
fn add_cached_totals(text: &mut Text, totals: Totals) -> Result<(), NoMemory>
    ensures added { OnOk result (text.new.begun ≡ text.old.begun ++ cached_totals_text totals) }
    ensures kept { text.new.whole ≡ text.old.whole }
{
    text.worded(b" slab-cache ", totals.slab_cache)?;
    text.worded(b" cached ", totals.cached)
}

/// Adds the part on objects and on what is cached.
fn add_object_totals(text: &mut Text, totals: Totals) -> Result<(), NoMemory>
    ensures added { OnOk result (text.new.begun ≡ text.old.begun ++ object_totals_text totals) }
    ensures kept { text.new.whole ≡ text.old.whole }
{
    add_held_totals(text, totals)?;
    add_cached_totals(text, totals)
}

/// Adds the part on free blocks.
#[tactic(auto, unfolding(crate::specs::Totals::block_totals_text))]
fn add_block_totals(text: &mut Text, totals: Totals) -> Result<(), NoMemory>
    ensures added { OnOk result (text.new.begun ≡ text.old.begun ++ block_totals_text totals) }
    ensures kept { text.new.whole ≡ text.old.whole }
{
    let Totals {
        bin,
        queue,
        hand,
        ..
    } = totals;
    text.worded(b" bin ", bin)?;
    text.worded(b" queue ", queue)?;
    text.worded(b" hand ", hand)
}

/// Adds the line of a pool's totals.
#[tactic(auto, unfolding(crate::specs::Totals::total_text))]
pub(crate) fn add_total(text: &mut Text, pool: u16, totals: Totals) -> Result<(), NoMemory>
    ensures added { OnOk result (text.new.begun ≡ text.old.begun ++ total_text pool totals) }
    ensures kept { text.new.whole ≡ text.old.whole }
{
    text.worded(b"total P", u64::from(pool))?;
    add_region_totals(text, totals)?;
    add_slab_totals(text, totals)?;
    add_object_totals(text, totals)?;
    add_block_totals(text, totals)?;
    text.word(b"\n")
}

/// Adds which cache bin it is, and what lies in it.
#[tactic(auto, unfolding(crate::specs::Totals::bin_items_text))]
fn add_bin_items(text: &mut Text, bin: BinNumbers) -> Result<(), NoMemory>
    ensures added { OnOk result (text.new.begun ≡ text.old.begun ++ bin_items_text bin) }
    ensures kept { text.new.whole ≡ text.old.whole }
{
    let BinNumbers {
        granules,
        used,
        items,
        ..
    } = bin;
    text.number(u64::from(granules))?;
    text.worded(b" used ", used)?;
    text.worded(b" items ", items)
}

/// Adds the times of a cache bin.
#[tactic(auto, unfolding(crate::specs::Totals::bin_times_text))]
fn add_bin_times(text: &mut Text, bin: BinNumbers) -> Result<(), NoMemory>
    ensures added { OnOk result (text.new.begun ≡ text.old.begun ++ bin_times_text bin) }
    ensures kept { text.new.whole ≡ text.old.whole }
{
    let BinNumbers {
        mean,
        threshold,
        get,
        cleaned,
        ..
    } = bin;
    text.worded(b" mean ", mean)?;
    text.worded(b" threshold ", threshold)?;
    text.worded(b" get ", get)?;
    text.worded(b" cleaned ", cleaned)
}

/// Adds the line of a cache bin.
#[tactic(auto, unfolding(crate::specs::Totals::cache_text))]
pub(crate) fn add_cache(text: &mut Text, pool: u16, bin: BinNumbers) -> Result<(), NoMemory>
    ensures added { OnOk result (text.new.begun ≡ text.old.begun ++ cache_text pool bin) }
    ensures kept { text.new.whole ≡ text.old.whole }
{
    text.worded(b"cache P", u64::from(pool))?;
    text.word(b" ")?;
    add_bin_items(text, bin)?;
    add_bin_times(text, bin)?;
    text.word(b"\n")
}

/// Adds the line of an object that is still held.
#[tactic(auto, unfolding(crate::specs::Totals::leak_text))]
pub(crate) fn add_leak(text: &mut Text, names: &[ThreadName], leak: Leak) -> Result<(), NoMemory>
    ensures added { OnOk result (text.new.begun ≡ text.old.begun ++ leak_text (names_of names.now) leak) }
    ensures kept { text.new.whole ≡ text.old.whole }
{
    text.word(b"leak ")?;
    add_object(text, names, leak.place, leak.usable, leak.grant)?;
    text.word(b"\n")
}
