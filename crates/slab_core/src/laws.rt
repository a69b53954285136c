//! Laws of a slab's private list and of its header. Each is what a function with an empty body ensures.
ghost use Rattle.slab_core.specs.Headers.{HeadersTellRecords};
ghost use Rattle.slab_core.specs.PrivateLists.{FreshSlabsKeepNone, KeepersAreValid, TakesFromPrivateList, FreesToPrivateList};

/// A slab of which no object was handed out has no private object.
pub fn fresh_slabs_keep_none()
    ensures { FreshSlabsKeepNone }
{}

/// A slab with a private list is valid, where no more objects were handed out than its class has.
pub fn keepers_are_valid()
    ensures { KeepersAreValid }
{}

/// Taking gives the newest private object and leaves the older ones, where the object after it is named as the one
/// below. Where there is none it gives the next object of the rest.
pub fn takes_from_private_list()
    ensures { TakesFromPrivateList }
{}

/// Freeing an object that was handed out and is not private puts it in front of the private list.
pub fn frees_to_private_list()
    ensures { FreesToPrivateList }
{}

/// No two valid records of one class and index have one header.
pub fn headers_tell_records()
    ensures { HeadersTellRecords }
{}
