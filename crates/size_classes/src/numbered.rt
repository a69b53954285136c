//! The classes by their numbers, which are their positions, where any number may stand.
ghost use Rattle.std.specs.Prelude.{◌≡◌};
ghost use Rattle.size_classes.specs.Classes.{class_at, class_size, class_objects};
ghost use Rattle.size_classes.specs.Layout.{object_offset};

use crate::Class;
use pool_types::geometry::{CLASSES, SLAB_BYTES};

impl Class {
    /// The class of this number, if there is one.
    pub fn of_number(number: u8) -> Option<Class>
        ensures { result ≡ class_at number }
    {
        if usize::from(number) < CLASSES {
            Some(Class { position: number })
        } else {
            None
        }
    }
}

/// The size of an object of the class of this number, in bytes, and 0 where there is no such class.
pub fn size_of(number: u8) -> u64
    ensures { result ≡ class_size number }
{
    match Class::of_number(number) {
        Some(class) => class.size(),
        None => 0,
    }
}

/// How many objects a slab of the class of this number has, and 0 where there is no such class.
pub fn objects_of(number: u8) -> u64
    ensures { result ≡ class_objects number }
{
    match Class::of_number(number) {
        Some(class) => u64::from(class.objects()),
        None => 0,
    }
}

/// Where an object of a slab starts, in bytes from the slab's start. An object that a slab has no room for starts at
/// 0.
pub fn offset_of(number: u8, object: u64) -> u64
    ensures { result ≡ object_offset number object }
{
    let bytes = object.saturating_add(1).saturating_mul(size_of(number));
    SLAB_BYTES.saturating_sub(bytes)
}
