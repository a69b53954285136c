//! Holders of bytes, and the pairs of them between which bytes may go.
ghost use Rattle.std.specs.Prelude.{◌≡◌, Some};
ghost use Rattle.part_model.specs.Lawful.{is_lawful_pair};
ghost use Rattle.part_model.specs.Totals.{is_at};

use pool_types::Grant;

/// Who has a byte of a pool (its owner). This project's own; what oneTBB's tbbmalloc does with such bytes stands behind
/// each.
#[derive(Clone, Copy, Debug, PartialEq, Eq)]
pub enum Holder {
    /// The ends of a region, outside of its granules.
    Waste,
    /// What lies in a slab before its objects (tbbmalloc's `Block` header).
    Head,
    /// The objects of a slab that were never handed out (behind its bump pointer, `bumpPtr`).
    Rest,
    /// An object that its slab's owner freed (in its local free list, `freeList`).
    Private,
    /// An object that another thread freed (in its remote free list, `publicFreeList`).
    Public,
    /// An object (an allocation) that was handed out under this grant.
    Object(Grant),
    /// What lies before a large object in its block, which has the object's grant (`LargeMemoryBlock`).
    LargeHead(Grant),
    /// A slab that this seat keeps for its next need (its `FreeBlockPool`).
    SlabCache(u8),
    /// A block of so many granules in the cache of large blocks (`LargeObjectCache`).
    Cached(u16),
    /// A block in a bin of free blocks (`Backend`'s `IndexedBins`).
    Bin,
    /// A block that waits to be united with its neighbours (the `CoalRequestQ`).
    Queue,
    /// What is in transit: this seat is just about to hand it on.
    Hand(u8),
}

/// What a holder is, without the names and numbers that it bears.
#[derive(Clone, Copy, Debug, PartialEq, Eq)]
pub enum HolderKind {
    Waste,
    Head,
    Rest,
    Private,
    Public,
    Object,
    LargeHead,
    SlabCache,
    Cached,
    Bin,
    Queue,
    Hand,
}

impl Holder {
    /// Whether it is of this kind.
    pub fn is(self, kind: HolderKind) -> bool
        ensures { result ≡ is_at kind (Some self) }
    {
        match (kind, self) {
            (HolderKind::Waste, Holder::Waste) => true,
            (HolderKind::Head, Holder::Head) => true,
            (HolderKind::Rest, Holder::Rest) => true,
            (HolderKind::Private, Holder::Private) => true,
            (HolderKind::Public, Holder::Public) => true,
            (HolderKind::Object, Holder::Object(_)) => true,
            (HolderKind::LargeHead, Holder::LargeHead(_)) => true,
            (HolderKind::SlabCache, Holder::SlabCache(_)) => true,
            (HolderKind::Cached, Holder::Cached(_)) => true,
            (HolderKind::Bin, Holder::Bin) => true,
            (HolderKind::Queue, Holder::Queue) => true,
            (HolderKind::Hand, Holder::Hand(_)) => true,
            _ => false,
        }
    }
}

/// Whether a seat may ever move bytes from the one holder to the other.
pub(crate) fn is_lawful_pair(seat: u8, from: Option<Holder>, to: Option<Holder>) -> bool
    ensures { result ≡ is_lawful_pair seat from to }
{
    match (from, to) {
        (None, Some(Holder::Hand(hand))) => hand == seat,
        (None, Some(Holder::Waste)) => true,
        (Some(Holder::Hand(hand)), None) => hand == seat,
        (Some(Holder::Waste), None) => true,
        (Some(Holder::Hand(hand)), Some(to)) => hand == seat && is_left_to(seat, to),
        (Some(from), Some(Holder::Hand(hand))) => hand == seat && is_taken_from(seat, from),
        (Some(Holder::Rest | Holder::Private), Some(Holder::Object(grant))) => grant.seat == seat,
        (Some(Holder::Object(_) | Holder::Public), Some(Holder::Private)) => true,
        _ => false,
    }
}

/// Whether a seat may leave to this holder what it has in hand.
fn is_left_to(seat: u8, to: Holder) -> bool
    ensures { result ≡ is_lawful_pair seat (Some (Holder.Hand seat)) (Some to) }
{
    match to {
        Holder::Bin | Holder::Queue | Holder::Cached(_) => true,
        Holder::Head | Holder::Rest | Holder::Public => true,
        Holder::SlabCache(owner) => owner == seat,
        Holder::LargeHead(grant) | Holder::Object(grant) => grant.seat == seat,
        _ => false,
    }
}

/// Whether a seat may take into its hand what this holder has.
fn is_taken_from(seat: u8, from: Holder) -> bool
    ensures { result ≡ is_lawful_pair seat (Some from) (Some (Holder.Hand seat)) }
{
    match from {
        Holder::Bin | Holder::Queue | Holder::Cached(_) => true,
        Holder::Head | Holder::Rest | Holder::Private => true,
        Holder::Object(_) | Holder::LargeHead(_) => true,
        Holder::SlabCache(owner) => owner == seat,
        _ => false,
    }
}
