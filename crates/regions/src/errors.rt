//! Why an office obtains no region.

/// Why no region was obtained. This project's own.
#[derive(Clone, Copy, Debug, PartialEq, Eq)]
pub enum ObtainError {
    /// The policy is fixed, and a region came before, even if it was given back since.
    HasRegion,
    /// As many regions are out as can be, or the next number is not one that a region can have.
    RegionsFull { out: u32, next: u32 },
    /// The longest gap, which has `greatest` free indices, is shorter than the `asked` that a region may need.
    SpanFull { asked: u32, greatest: u32 },
    /// The callback gave nothing.
    RawFailed,
}
