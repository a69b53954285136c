//! What a reset and a destroy of a pool answer.

use crate::limits::MOST_REGIONS;
use crate::policy::RegionRec;
use arrayvec::ArrayVec;
use thiserror::Error;

/// Why a pool is not reset. This project's own.
#[derive(Clone, Copy, Debug, PartialEq, Eq, Error)]
pub enum ResetError {
    /// The lowest seat that is in a call.
    #[error("a call is not done")]
    CallBegun(u8),
    #[error("out of memory")]
    NoMemory,
}

/// What became of the regions of a pool that was destroyed, by number: the raw callback took them back, or failed to,
/// or the policy has no callback for giving back. This project's own.
#[derive(Default, Drop)]
pub struct Destroyed {
    pub returned: ArrayVec<RegionRec, MOST_REGIONS>,
    pub refused: ArrayVec<RegionRec, MOST_REGIONS>,
    pub kept: ArrayVec<RegionRec, MOST_REGIONS>,
}
