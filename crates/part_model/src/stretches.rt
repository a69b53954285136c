//! A list of stretches, each of bytes in a row that have one holder. No byte is in two stretches.
ghost use Rattle.std.specs.Prelude.{◌≡◌, ◌≢◌, ◌≤◌, ◌<◌, ◌+◌, ◌-◌, ◌^◌, ℕ, [], ◌∷◌, true, false, All, IfOk, IfSome, MatchOption, OnOk, None, Some, ◌&&◌, if◌then◌else◌};
ghost use Rattle.pool_types.specs.declared.values.Place.{Place};
ghost use Rattle.part_model.specs.Holding.{same_region, lies_in, after_part, after_parts, IsWhole, AreWhole};
ghost use Rattle.part_model.specs.Stretches.{holder_at, at_piece, first_of, count_of, cover, is_before, is_behind, IsSound, AreStretches, IsOnce, IsAlike, IsFirstElsewhere};

use crate::holders::Holder;
use crate::moves::{Part, Range, same_region};
use pool_types::Place;
use std::alloc::{AllocError, Global};

/// Bytes in a row that have one holder.
#[derive(Clone, Copy)]
pub(crate) struct Stretch {
    pub(crate) range: Range,
    pub(crate) holder: Holder,
}

/// Whether the byte lies in the range.
fn lies_in(byte: &Place, range: &Range) -> bool
    ensures { result ≡ lies_in byte.now range.now }
{
    same_region(byte, &range.place)
        && range.place.offset <= byte.offset
        && byte.offset - range.place.offset < range.bytes
}

/// Where the stretches have the byte.
pub(crate) fn holder_at(stretches: &[Stretch], byte: &Place) -> Option<Holder>
    ensures { result ≡ holder_at stretches.now byte.now }
{
    for stretch in stretches {
        if lies_in(byte, &stretch.range) {
            return Some(stretch.holder);
        }
    }
    None
}

/// Whether the byte is there.
fn is_held(stretches: &[Stretch], byte: &Place, wanted: Option<Holder>) -> bool
    ensures yes { result ≡ true → holder_at stretches.now byte.now ≡ wanted }
    ensures no { result ≡ false → holder_at stretches.now byte.now ≢ wanted }
{
    holder_at(stretches, byte) == wanted
}

/// An offset above the byte's, at most `end`, below which the range has all bytes from this one on, or none.
fn nearest_edge(range: &Range, byte: &Place, end: u64) -> u64
    requires whole { IsWhole range.now }
    requires room { byte.now.offset < end }
    ensures above { byte.now.offset < result }
    ensures within { result ≤ end }
    ensures alike { (other : Place) → same_region other byte.now ≡ true
        → byte.now.offset ≤ other.offset → other.offset < result
        → lies_in other range.now ≡ lies_in byte.now range.now }
{
    let start = range.place.offset;
    let stop = start + range.bytes;
    if byte.offset < start {
        end.min(start)
    } else if byte.offset < stop {
        end.min(stop)
    } else {
        end
    }
}

/// An offset above the byte's, at most `end`, below which all bytes from this one on have its holder.
fn stretch_end(stretches: &[Stretch], byte: &Place, end: u64) -> u64
    requires sound { All IsSound stretches.now }
    requires room { byte.now.offset < end }
    ensures above { byte.now.offset < result }
    ensures within { result ≤ end }
    ensures alike { IsAlike stretches.now byte.now result }
{
    let mut near = end;
    for stretch in stretches {
        near = nearest_edge(&stretch.range, byte, near);
    }
    near
}

/// The first byte of the range that isn't at `wanted`. It goes from stretch to stretch.
pub(crate) fn first_elsewhere(
    stretches: &[Stretch],
    range: &Range,
    wanted: Option<Holder>,
) -> Option<Place>
    requires sound { All IsSound stretches.now }
    requires whole { IsWhole range.now }
    ensures { MatchOption result
        ((byte : Place) → lies_in byte range.now ≡ true → holder_at stretches.now byte ≡ wanted)
        (λ byte. IsFirstElsewhere stretches.now range.now wanted byte) }
{
    let end = range.place.offset + range.bytes;
    let mut byte = range.place;
    while byte.offset < end {
        if !is_held(stretches, &byte, wanted) {
            return Some(byte);
        }
        byte.offset = stretch_end(stretches, &byte, end);
    }
    None
}

/// What of the stretch lies before the range, or all of it where the range is of another region.
fn before(stretch: &Stretch, range: &Range) -> Option<Stretch>
    requires { IsSound stretch.now }
    ensures held { (byte : Place) → at_piece result byte
        ≡ (if lies_in byte stretch.now.range && is_before byte range.now then Some stretch.now.holder else None) }
    ensures sound { IfSome result IsSound }
{
    let start = stretch.range.place.offset;
    if !same_region(&stretch.range.place, &range.place) {
        return Some(*stretch);
    }
    if start < range.place.offset {
        let bytes = stretch.range.bytes.min(range.place.offset - start);
        return Some(Stretch {
            range: Range {
                place: stretch.range.place,
                bytes,
            },
            holder: stretch.holder,
        });
    }
    None
}

/// What of the stretch lies behind the range, in its region.
fn behind(stretch: &Stretch, range: &Range) -> Option<Stretch>
    requires sound { IsSound stretch.now }
    requires whole { IsWhole range.now }
    ensures held { (byte : Place) → at_piece result byte
        ≡ (if lies_in byte stretch.now.range && is_behind byte range.now then Some stretch.now.holder else None) }
    ensures sound { IfSome result IsSound }
{
    let stop = stretch.range.place.offset + stretch.range.bytes;
    let end = range.place.offset + range.bytes;
    if !same_region(&stretch.range.place, &range.place) || stop <= end {
        return None;
    }
    let offset = stretch.range.place.offset.max(end);
    let place = Place {
        offset,
        ..stretch.range.place
    };
    Some(Stretch {
        range: Range {
            place,
            bytes: stop - offset,
        },
        holder: stretch.holder,
    })
}

/// Adds a piece, if there is one.
fn push_piece(kept: &mut Vec<Stretch>, piece: Option<Stretch>) -> Result<(), AllocError>
    requires sound { All IsSound kept.old.items }
    requires piece { IfSome piece IsSound }
    ensures held { OnOk result ((byte : Place) → holder_at kept.new.items byte
        ≡ first_of (holder_at kept.old.items byte) (at_piece piece byte)) }
    ensures sound { OnOk result (All IsSound kept.new.items) }
    ensures cover { OnOk result ((byte : Place) → cover kept.new.items byte
        ≡ cover kept.old.items byte + count_of (at_piece piece byte)) }
{
    if let Some(piece) = piece {
        kept.push(piece)?;
    }
    Ok(())
}

/// Adds what of the stretch lies outside of the range.
fn keep_outside(kept: &mut Vec<Stretch>, stretch: &Stretch, range: &Range) -> Result<(), AllocError>
    requires sound { All IsSound kept.old.items }
    requires stretch { IsSound stretch.now }
    requires whole { IsWhole range.now }
    ensures held { OnOk result ((byte : Place) → holder_at kept.new.items byte
        ≡ first_of (holder_at kept.old.items byte)
        (if lies_in byte range.now then None else at_piece (Some stretch.now) byte)) }
    ensures sound { OnOk result (All IsSound kept.new.items) }
    ensures cover { OnOk result ((byte : Place) → cover kept.new.items byte
        ≡ cover kept.old.items byte
        + count_of (if lies_in byte range.now then None else at_piece (Some stretch.now) byte)) }
{
    push_piece(kept, before(stretch, range))?;
    push_piece(kept, behind(stretch, range))?;
    Ok(())
}

/// The stretches without the bytes of the range.
fn outside(alloc: Global, stretches: &[Stretch], range: &Range) -> Result<Vec<Stretch>, AllocError>
    requires sound { All IsSound stretches.now }
    requires whole { IsWhole range.now }
    ensures held { IfOk result (λ kept. (byte : Place) → holder_at kept.items byte
        ≡ (if lies_in byte range.now then None else holder_at stretches.now byte)) }
    ensures sound { IfOk result (λ kept. All IsSound kept.items) }
    ensures cover { IfOk result (λ kept. (byte : Place) → cover kept.items byte
        ≡ (if lies_in byte range.now then 0 else cover stretches.now byte)) }
{
    let mut kept = Vec::new(alloc);
    for stretch in stretches {
        keep_outside(&mut kept, stretch, range)?;
    }
    Ok(kept)
}

/// The range of a part under its new holder, if it is to be in the pool.
fn arrival(part: Part) -> Option<Stretch>
    requires { IsWhole part.range }
    ensures held { (byte : Place) → at_piece result byte
        ≡ (if lies_in byte part.range then part.to else None) }
    ensures sound { IfSome result IsSound }
{
    match part.to {
        Some(holder) => Some(Stretch {
            range: part.range,
            holder,
        }),
        None => None,
    }
}

/// The stretches after a part was moved.
fn after_part(alloc: Global, stretches: &[Stretch], part: &Part) -> Result<Vec<Stretch>, AllocError>
    requires stretches { AreStretches stretches.now }
    requires whole { IsWhole part.now.range }
    ensures held { IfOk result (λ next. (byte : Place) → holder_at next.items byte
        ≡ after_part (holder_at stretches.now) part.now byte) }
    ensures stretches { IfOk result (λ next. AreStretches next.items) }
{
    let mut next = outside(alloc, stretches, &part.range)?;
    push_piece(&mut next, arrival(*part))?;
    Ok(next)
}

/// The stretches after all parts were moved, one after another.
pub(crate) fn after_parts(
    alloc: Global,
    stretches: &[Stretch],
    parts: &[Part],
) -> Result<Vec<Stretch>, AllocError>
    requires stretches { AreStretches stretches.now }
    requires whole { AreWhole parts.now }
    ensures held { IfOk result (λ next. (byte : Place) → holder_at next.items byte
        ≡ after_parts (holder_at stretches.now) parts.now byte) }
    ensures stretches { IfOk result (λ next. AreStretches next.items) }
{
    let mut next = Vec::from_slice(alloc, stretches)?;
    for part in parts {
        next = after_part(alloc, next.as_slice(), part)?;
    }
    Ok(next)
}
