//! A pool's journal: what its steps were.

use crate::moves::Part;
use arrayvec::ArrayVec;
use pool_types::{Answer, KeeperChange, RegionRec, Row};
use size_classes::Class;

/// A step of a pool that moves something, ends a call, or looks at a bin in vain. A move of more parts, or of more
/// slabs, than an entry has room for takes several entries, which have one step's number. This project's own.
#[derive(Clone, Debug, Drop, PartialEq, Eq)]
pub struct Journaled {
    /// The number of the step, which stays at the greatest u64. A call that ends without a step has that of the pool's
    /// last step, or 0 before the first.
    pub step: u64,
    pub seat: u8,
    /// The kind of step, or `Nothing` of a call that ends without one.
    pub row: Row,
    pub parts: ArrayVec<Part, 4>,
    /// A slab that goes from one keeper to another.
    pub book: Option<KeeperChange>,
    /// The class of a slab that enters the slab book.
    pub entered: Option<Class>,
    /// The record of a region that comes.
    pub region: Option<RegionRec>,
    /// The answer of the call that the step ends.
    pub answer: Option<Answer>,
}
