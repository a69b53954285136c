//! What holds of the rows and of the numbers. A function here does nothing: it has a law as its contract.
ghost use Rattle.std.specs.Prelude.{◌≡◌};
ghost use Rattle.pool_types.specs.Geometry.{unit_bytes, granule_bytes, slab_granules, slab_bytes, slab_header_bytes, objects_bytes, largest_small, class_count, line_bytes, bin_count};
ghost use Rattle.pool_types.specs.Laws.{EachRowIsListed};
ghost use Rattle.pool_types.specs.Rows.{all_rows};

use crate::geometry::{
    BIN_COUNT, CLASSES, GRANULE_BYTES, LARGEST_SMALL, LINE_BYTES, OBJECTS_BYTES, SLAB_BYTES,
    SLAB_GRANULES, SLAB_HEADER_BYTES, UNIT_BYTES,
};
use crate::rows::Row;

/// Each row but that of no step stands in `Row::ALL`, and that one does not.
pub fn each_row_is_listed()
    ensures law { EachRowIsListed }
    ensures list { Row.ALL ≡ all_rows }
{}

/// The code's numbers of a pool's geometry are those of the definitions.
pub fn numbers_are_those_defined()
    ensures unit { UNIT_BYTES ≡ unit_bytes }
    ensures granule { GRANULE_BYTES ≡ granule_bytes }
    ensures granules { SLAB_GRANULES ≡ slab_granules }
    ensures slab { SLAB_BYTES ≡ slab_bytes }
    ensures header { SLAB_HEADER_BYTES ≡ slab_header_bytes }
    ensures objects { OBJECTS_BYTES ≡ objects_bytes }
    ensures small { LARGEST_SMALL ≡ largest_small }
    ensures classes { CLASSES ≡ class_count }
    ensures line { LINE_BYTES ≡ line_bytes }
    ensures bins { BIN_COUNT ≡ bin_count }
{}
