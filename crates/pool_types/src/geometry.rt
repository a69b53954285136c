//! How a pool is cut. That a slab is two granules is this project's own, and so is each number of whose source nothing
//! is said.

/// The bytes of a unit: an object begins at a unit, which has the object's mark.
pub const UNIT_BYTES: u64 = 8;

/// The bytes of a granule (a page), by which a pool cuts its regions.
pub const GRANULE_BYTES: u64 = 8192;

/// How many granules a slab has.
pub const SLAB_GRANULES: u64 = 2;

/// The bytes of a slab, which begins at an address that is a multiple of them. tbbmalloc's `slabSize`, in
/// src/tbbmalloc/tbbmalloc_internal.h.
pub const SLAB_BYTES: u64 = SLAB_GRANULES * GRANULE_BYTES;

/// The bytes at a slab's start that no object gets.
pub const SLAB_HEADER_BYTES: u64 = 128;

/// The bytes of a slab that its objects share.
pub const OBJECTS_BYTES: u64 = SLAB_BYTES - SLAB_HEADER_BYTES;

/// The largest size of a small object, in bytes.
pub const LARGEST_SMALL: u64 = 8128;

/// How many classes of small objects there are.
pub const CLASSES: usize = 26;

/// The bytes of a line: the least that lies before a large object, and the least alignment of one.
pub const LINE_BYTES: u64 = 64;

/// How many bins (segregated lists of free blocks) a pool has: one for each number of granules, the last one for all
/// from there on.
pub const BIN_COUNT: u32 = 512;
