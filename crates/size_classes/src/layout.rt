//! Where the objects of a slab lie. It is this project's own; oneTBB too puts them at the slab's end, in
//! `src/tbbmalloc/frontend.cpp` (`Block::initEmptyBlock`).
ghost use Rattle.std.specs.Prelude.{◌≡◌, ◌+◌, ◌*◌, ◌/◌, ◌<◌, ◌≤◌};
ghost use Rattle.pool_types.specs.Geometry.{slab_bytes};
ghost use Rattle.size_classes.specs.Classes.{class_size, class_objects};
ghost use Rattle.size_classes.specs.Layout.{object_offset, head_bytes};

use crate::Class;
use pool_types::geometry::SLAB_BYTES;

/// Where an object of a slab of this class starts, in bytes from the slab's start. It is a multiple of 8, and of 16 but
/// for the smallest class.
pub fn object_offset(class: Class, object: u32) -> u32
    requires { object < class_objects class }
    ensures exact { result ≡ object_offset class object }
    ensures behind_head { head_bytes class ≤ result }
    ensures before_end { result + class_size class ≤ slab_bytes }
    ensures eights { result ≡ 8 * (result / 8) }
    ensures sixteens { 0 < class → result ≡ 16 * (result / 16) }
{
    SLAB_BYTES as u32 - (object + 1) * class.size() as u32
}

#[cfg(test)]
mod tests {
    use super::*;
    use crate::class_of;

    /// The offsets of objects of the smallest and the largest class, and of one between.
    #[test]
    fn lays_objects_from_the_end(rt: HostRuntime) {
        let table: [(u64, u32, u32); 5] = [
            (1, 0, 16376),
            (8, 2031, 128),
            (100, 0, 16272),
            (8128, 0, 8256),
            (8128, 1, 128),
        ];
        for (size, object, offset) in table {
            let class = class_of(size).expect(&rt, "the size has a class");
            assert!(rt; object < class.objects());
            assert_eq!(rt; object_offset(class, object), offset, "at {size}");
        }
    }
}
