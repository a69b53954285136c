//! Laws of where a slab's objects lie. Each is what a function with an empty body ensures.
ghost use Rattle.size_classes.specs.Layout.{ObjectsLieInSlab, ObjectsAreApart, RestShrinksFromEnd, SlabsAreLaidOut};

/// Each object lies between the slab's head and its end.
pub fn objects_lie_in_slab()
    ensures { ObjectsLieInSlab }
{}

/// No two objects of a slab share a byte.
pub fn objects_are_apart()
    ensures { ObjectsAreApart }
{}

/// The object that is next in the rest is the highest one of it.
pub fn rest_shrinks_from_end()
    ensures { RestShrinksFromEnd }
{}

/// The head has the bytes of a slab's header or more. The rest goes from it to the slab's end before an object was
/// handed out, and has no byte once all were.
pub fn slabs_are_laid_out()
    ensures { SlabsAreLaidOut }
{}
