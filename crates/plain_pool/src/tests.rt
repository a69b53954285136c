ghost use Rattle.std.specs.Prelude.{◌≡◌, true};
ghost use Rattle.plain_lists.specs.Whole.{IsServed};

use crate::Pool;
use part_model::Totals;
use pool_types::{Answer, Found, Grant, Leak, Looks, NullCause, Place, Request};
use std::alloc::{AllocError, Global};

/// A byte of the pool's region.
fn place(offset: u64) -> Place {
    Place {
        pool: 0,
        region: 0,
        offset,
    }
}

/// Whether the pool serves the request.
fn is_served(request: Request) -> bool
    ensures { result ≡ true → IsServed request }
{
    match request {
        Request::Malloc { size } => size <= 8128,
        Request::Free { .. } | Request::Msize { .. } | Request::Identify { .. } => true,
        _ => false,
    }
}

/// Asks the pool, where it serves the request and has numbers left.
fn ask(pool: &mut Pool, request: Request) -> Answer {
    if pool.granted() < 1000 && is_served(request) {
        return pool.call(request);
    }
    Answer::Exited
}

/// A malloc of so many bytes.
fn malloc(size: u64) -> Request {
    Request::Malloc { size }
}

/// A free of the object that begins at the offset.
fn free(offset: u64) -> Request {
    Request::Free {
        place: Some(place(offset)),
    }
}

/// The answer that an object of the one thread was got.
fn got(offset: u64, usable: u64, number: u64) -> Answer {
    Answer::Got {
        place: place(offset),
        usable,
        grant: Grant { seat: 0, number },
    }
}

/// An object of the one thread that is held.
fn leak(offset: u64, usable: u64, number: u64) -> Leak {
    Leak {
        place: place(offset),
        usable,
        grant: Grant { seat: 0, number },
    }
}

/// Where the answer's object begins, where it got one.
fn offset_of(answer: Answer) -> u64 {
    match answer {
        Answer::Got { place, .. } => place.offset,
        _ => 0,
    }
}

#[test]
fn one_object_comes_and_goes(rt: HostRuntime) -> Result<(), AllocError> {
    let mut pool = Pool::new(rt.alloc())?;
    let other = Place {
        region: 1,
        ..place(0)
    };
    let rows = [
        (free(16272), Answer::NotHeld(Found::NoPlace)),
        (malloc(100), got(16272, 112, 1)),
        (
            Request::Msize {
                place: Some(place(16272)),
            },
            Answer::Size(112),
        ),
        (
            Request::Identify {
                place: Some(place(16272)),
            },
            Answer::Pool(0),
        ),
        (free(16272), Answer::Freed),
        (free(16272), Answer::NotHeld(Found::NoGrant)),
        (free(16280), Answer::NotHeld(Found::NoGrant)),
        (free(16273), Answer::NotHeld(Found::NoPlace)),
        (free(1048576), Answer::NotHeld(Found::NoPlace)),
        (
            Request::Free { place: Some(other) },
            Answer::NotHeld(Found::NoPlace),
        ),
        (Request::Free { place: None }, Answer::False),
        (Request::Msize { place: None }, Answer::Size(0)),
        (
            Request::Msize {
                place: Some(place(16272)),
            },
            Answer::NotHeld(Found::NoGrant),
        ),
        (Request::Identify { place: None }, Answer::NoPool),
        (
            Request::Identify {
                place: Some(place(16272)),
            },
            Answer::NoPool,
        ),
        (malloc(100), got(16272, 112, 2)),
        (malloc(100), got(16160, 112, 3)),
        (malloc(100), got(16048, 112, 4)),
        (free(16160), Answer::Freed),
        (free(16272), Answer::Freed),
        (malloc(112), got(16272, 112, 5)),
        (malloc(97), got(16160, 112, 6)),
        (malloc(0), got(32760, 8, 7)),
    ];
    for (request, answer) in rows {
        assert_eq!(rt; ask(&mut pool, request), answer);
    }
    let totals = pool.totals();
    assert_eq!(rt; totals.object, 3 * 112 + 8);
    assert_eq!(rt; totals.bin, 1048576 - 2 * 16384);
    let leaks = pool.leaks(rt.alloc())?;
    let wanted = [
        leak(16048, 112, 4),
        leak(16160, 112, 6),
        leak(16272, 112, 5),
        leak(32760, 8, 7),
    ];
    assert_eq!(rt; leaks.as_slice(), wanted.as_slice());
    Ok(())
}

#[test]
fn slabs_go_through_the_slab_cache_to_the_bins(rt: HostRuntime) -> Result<(), AllocError> {
    let mut pool = Pool::new(rt.alloc())?;
    let mut offsets = Vec::new(rt.alloc());
    for _ in 0..80 {
        offsets.push(offset_of(ask(&mut pool, malloc(8128))))?;
    }
    for offset in &offsets {
        assert_eq!(rt; ask(&mut pool, free(*offset)), Answer::Freed);
    }
    let wanted = Totals {
        regions: 1,
        bytes: 1048576,
        slab_cache: 245760,
        bin: 802816,
        ..Totals::default()
    };
    assert_eq!(rt; pool.totals(), wanted);
    assert_eq!(rt; ask(&mut pool, malloc(8128)), got(647232, 8128, 81));
    for _ in 0..29 {
        ask(&mut pool, malloc(8128));
    }
    assert_eq!(rt; ask(&mut pool, malloc(8128)), got(663616, 8128, 111));
    Ok(())
}

#[test]
fn a_region_has_room_for_64_slabs(rt: HostRuntime) -> Result<(), AllocError> {
    let mut pool = Pool::new(rt.alloc())?;
    for _ in 0..128 {
        assert!(rt; matches!(ask(&mut pool, malloc(8128)), Answer::Got { .. }));
    }
    let looks = Looks {
        first: 1,
        last: 511,
        seen: 0,
    };
    assert_eq!(rt;
        ask(&mut pool, malloc(8128)),
        Answer::Null(NullCause::NoFit(looks))
    );
    assert_eq!(rt; ask(&mut pool, free(8256)), Answer::Freed);
    assert_eq!(rt; ask(&mut pool, malloc(8128)), got(8256, 8128, 129));
    Ok(())
}
