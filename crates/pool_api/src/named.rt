//! The calls of a heap, each by its name. Each makes turns until it is answered, may wait, and takes no memory.
ghost use Rattle.pool_types.specs.declared.values.Request.TheVariants as request;
ghost use Rattle.pool_api.specs.Heaps.{entry_of, IsHeap, CalledBy};
ghost use Rattle.atomic_driver.specs.Seating.{IsPool};

use crate::calls::call;
use crate::pools::{Heap, Pool};
use pool_types::{Answer, InCall, Place, Raw, Request};
use std::sync::Wait;

/// Gets an object of so many bytes.
pub fn malloc<R: Raw, W: Wait>(
    rt: &W,
    pool: &Pool<R>,
    heap: &mut Heap<R>,
    size: u64,
) -> Result<Answer, InCall>
    requires pool { IsPool R.out R.faults R.got R.passed pool.now }
    requires heap { IsHeap R.out R.faults R.got R.passed pool.now heap.old }
    ensures heap { IsHeap R.out R.faults R.got R.passed pool.now heap.new }
    ensures called { CalledBy heap.old.local (entry_of heap.old) (request.Malloc size) result heap.new.local
        (entry_of heap.new) }
{
    call(rt, pool, heap, Request::Malloc { size })
}

/// Gets an object of so many bytes, at a multiple of the alignment.
pub fn aligned<R: Raw, W: Wait>(
    rt: &W,
    pool: &Pool<R>,
    heap: &mut Heap<R>,
    size: u64,
    alignment: u64,
) -> Result<Answer, InCall>
    requires pool { IsPool R.out R.faults R.got R.passed pool.now }
    requires heap { IsHeap R.out R.faults R.got R.passed pool.now heap.old }
    ensures heap { IsHeap R.out R.faults R.got R.passed pool.now heap.new }
    ensures called { CalledBy heap.old.local (entry_of heap.old) (request.Aligned size alignment) result heap.new.local
        (entry_of heap.new) }
{
    call(rt, pool, heap, Request::Aligned { size, alignment })
}

/// Gets so many bytes in place of the object at a place, or anew.
pub fn realloc<R: Raw, W: Wait>(
    rt: &W,
    pool: &Pool<R>,
    heap: &mut Heap<R>,
    place: Option<Place>,
    size: u64,
) -> Result<Answer, InCall>
    requires pool { IsPool R.out R.faults R.got R.passed pool.now }
    requires heap { IsHeap R.out R.faults R.got R.passed pool.now heap.old }
    ensures heap { IsHeap R.out R.faults R.got R.passed pool.now heap.new }
    ensures called { CalledBy heap.old.local (entry_of heap.old) (request.Realloc place size) result heap.new.local
        (entry_of heap.new) }
{
    call(rt, pool, heap, Request::Realloc { place, size })
}

/// Gets so many bytes, at a multiple of the alignment, in place of the object at a place, or anew.
pub fn aligned_realloc<R: Raw, W: Wait>(
    rt: &W,
    pool: &Pool<R>,
    heap: &mut Heap<R>,
    place: Option<Place>,
    size: u64,
    alignment: u64,
) -> Result<Answer, InCall>
    requires pool { IsPool R.out R.faults R.got R.passed pool.now }
    requires heap { IsHeap R.out R.faults R.got R.passed pool.now heap.old }
    ensures heap { IsHeap R.out R.faults R.got R.passed pool.now heap.new }
    ensures called { CalledBy heap.old.local (entry_of heap.old) (request.AlignedRealloc place size alignment) result heap.new.local
        (entry_of heap.new) }
{
    call(
        rt,
        pool,
        heap,
        Request::AlignedRealloc {
            place,
            size,
            alignment,
        },
    )
}

/// Frees the object at a place.
pub fn free<R: Raw, W: Wait>(
    rt: &W,
    pool: &Pool<R>,
    heap: &mut Heap<R>,
    place: Option<Place>,
) -> Result<Answer, InCall>
    requires pool { IsPool R.out R.faults R.got R.passed pool.now }
    requires heap { IsHeap R.out R.faults R.got R.passed pool.now heap.old }
    ensures heap { IsHeap R.out R.faults R.got R.passed pool.now heap.new }
    ensures called { CalledBy heap.old.local (entry_of heap.old) (request.Free place) result heap.new.local
        (entry_of heap.new) }
{
    call(rt, pool, heap, Request::Free { place })
}

/// Tells the usable size of the object at a place.
pub fn msize<R: Raw, W: Wait>(
    rt: &W,
    pool: &Pool<R>,
    heap: &mut Heap<R>,
    place: Option<Place>,
) -> Result<Answer, InCall>
    requires pool { IsPool R.out R.faults R.got R.passed pool.now }
    requires heap { IsHeap R.out R.faults R.got R.passed pool.now heap.old }
    ensures heap { IsHeap R.out R.faults R.got R.passed pool.now heap.new }
    ensures called { CalledBy heap.old.local (entry_of heap.old) (request.Msize place) result heap.new.local
        (entry_of heap.new) }
{
    call(rt, pool, heap, Request::Msize { place })
}

/// Tells whether an object of the pool is held at a place.
pub fn identify<R: Raw, W: Wait>(
    rt: &W,
    pool: &Pool<R>,
    heap: &mut Heap<R>,
    place: Option<Place>,
) -> Result<Answer, InCall>
    requires pool { IsPool R.out R.faults R.got R.passed pool.now }
    requires heap { IsHeap R.out R.faults R.got R.passed pool.now heap.old }
    ensures heap { IsHeap R.out R.faults R.got R.passed pool.now heap.new }
    ensures called { CalledBy heap.old.local (entry_of heap.old) (request.Identify place) result heap.new.local
        (entry_of heap.new) }
{
    call(rt, pool, heap, Request::Identify { place })
}

/// Gives up all that the heap keeps.
pub fn exit<R: Raw, W: Wait>(rt: &W, pool: &Pool<R>, heap: &mut Heap<R>) -> Result<Answer, InCall>
    requires pool { IsPool R.out R.faults R.got R.passed pool.now }
    requires heap { IsHeap R.out R.faults R.got R.passed pool.now heap.old }
    ensures heap { IsHeap R.out R.faults R.got R.passed pool.now heap.new }
    ensures called { CalledBy heap.old.local (entry_of heap.old) request.Exit result heap.new.local
        (entry_of heap.new) }
{
    call(rt, pool, heap, Request::Exit)
}
