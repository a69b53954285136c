use super::*;
use crate::holders::HolderKind;
use crate::laws;
use crate::moves::Range;
use arrayvec::ArrayVec;
use pool_types::Grant;
use std::process::Abort;

const FRONT: u64 = 100;

const GRANULES: u64 = 32768;

const BACK: u64 = 200;

fn place(region: u32, offset: u64) -> Place {
    Place {
        pool: 1,
        region,
        offset,
    }
}

fn part(place: Place, bytes: u64, from: Option<Holder>, to: Option<Holder>) -> Part {
    Part {
        range: Range { place, bytes },
        from,
        to,
    }
}

/// Makes a move that must be one that can be made.
fn make(rt: &impl Abort, alloc: Global, partition: &mut Partition, seat: u8, parts: &[Part]) {
    assert_eq!(rt; answer(rt, alloc, partition, seat, parts), Ok(()));
}

/// What a move answers.
fn answer(
    rt: &impl Abort,
    alloc: Global,
    partition: &mut Partition,
    seat: u8,
    parts: &[Part],
) -> Result<(), ApplyError> {
    let mut m = Move {
        seat,
        parts: ArrayVec::new(),
    };
    for part in parts {
        assert!(rt; m.parts.try_push(*part).is_ok());
    }
    assert!(rt; m.is_well_formed());
    partition.apply(alloc, &m)
}

fn totals(rt: &impl Abort, partition: &Partition) -> Totals {
    assert!(rt; partition.can_count());
    partition.totals()
}

const NOBODY: Option<Holder> = None;

const WASTE: Option<Holder> = Some(Holder::Waste);

const BIN: Option<Holder> = Some(Holder::Bin);

const HAND: Option<Holder> = Some(Holder::Hand(0));

/// A region with waste in front and behind, whose granules come in the hand of seat 0.
fn region_comes() -> [Part; 3] {
    [
        part(place(7, 0), FRONT, NOBODY, WASTE),
        part(place(7, FRONT), GRANULES, NOBODY, HAND),
        part(place(7, FRONT + GRANULES), BACK, NOBODY, WASTE),
    ]
}

#[test]
fn nothing_is_in_an_empty_partition(rt: HostRuntime) {
    let alloc = rt.alloc();
    let mut partition = Partition::empty(alloc);
    let first = place(0, 24);
    let refused = ApplyError::Unlawful {
        byte: first,
        held: NOBODY,
        wanted: BIN,
    };
    assert_eq!(rt;
        answer(&rt, alloc, &mut partition, 0, &[part(first, 8, BIN, HAND)]),
        Err(refused)
    );
    assert_eq!(rt; totals(&rt, &partition), Totals::default());
}

#[test]
fn a_region_comes_and_leaves(rt: HostRuntime) {
    let alloc = rt.alloc();
    let mut partition = Partition::empty(alloc);
    make(&rt, alloc, &mut partition, 0, &region_comes());
    let all_in_hand = Totals {
        regions: 1,
        bytes: FRONT + GRANULES + BACK,
        waste: FRONT + BACK,
        hand: GRANULES,
        ..Totals::default()
    };
    assert_eq!(rt; totals(&rt, &partition), all_in_hand);
    let leaves = [
        part(place(7, FRONT), GRANULES, HAND, NOBODY),
        part(place(7, 0), FRONT, WASTE, NOBODY),
        part(place(7, FRONT + GRANULES), BACK, WASTE, NOBODY),
    ];
    make(&rt, alloc, &mut partition, 0, &leaves);
    assert_eq!(rt; totals(&rt, &partition), Totals::default());
}

/// A partition with one region, whose first two granules are in a bin.
fn half_in_a_bin(rt: &impl Abort, alloc: Global) -> Partition {
    let mut partition = Partition::empty(alloc);
    make(rt, alloc, &mut partition, 0, &region_comes());
    make(
        rt,
        alloc,
        &mut partition,
        0,
        &[part(place(7, FRONT), 16384, HAND, BIN)],
    );
    partition
}

#[test]
fn the_first_byte_in_the_way_is_told(rt: HostRuntime) {
    let alloc = rt.alloc();
    let mut partition = half_in_a_bin(&rt, alloc);
    let before = totals(&rt, &partition);
    let in_bin = part(place(7, FRONT), 8192, BIN, HAND);
    let border = FRONT + 16384;
    let end = FRONT + GRANULES;
    let other = Some(Holder::Object(Grant { seat: 1, number: 1 }));
    for (name, seat, first, second, offset, held, wanted) in [
        (
            "the second part",
            0,
            in_bin,
            part(place(7, border), 8192, BIN, HAND),
            border,
            HAND,
            BIN,
        ),
        (
            "from a stretch's middle",
            0,
            in_bin,
            part(place(7, border + 5), 8, BIN, HAND),
            border + 5,
            HAND,
            BIN,
        ),
        (
            "a part's middle",
            0,
            in_bin,
            part(place(7, FRONT + 8192), 16384, BIN, HAND),
            border,
            HAND,
            BIN,
        ),
        (
            "the last byte",
            0,
            in_bin,
            part(place(7, border), 16385, HAND, BIN),
            end,
            WASTE,
            HAND,
        ),
        (
            "behind the region",
            0,
            in_bin,
            part(place(7, end), BACK + 1, WASTE, NOBODY),
            end + BACK,
            NOBODY,
            WASTE,
        ),
        (
            "bytes that are there",
            0,
            in_bin,
            part(place(7, border), 8, NOBODY, HAND),
            border,
            HAND,
            NOBODY,
        ),
        (
            "a foreign hand",
            1,
            part(place(7, border), 8, HAND, BIN),
            in_bin,
            border,
            HAND,
            HAND,
        ),
        (
            "a foreign grant",
            0,
            in_bin,
            part(place(7, border), 8, HAND, other),
            border,
            HAND,
            HAND,
        ),
        (
            "no such pair",
            0,
            in_bin,
            part(place(7, border), 8, HAND, WASTE),
            border,
            HAND,
            HAND,
        ),
        (
            "a pair that is wrong too",
            0,
            part(place(7, border), 8, BIN, WASTE),
            in_bin,
            border,
            HAND,
            BIN,
        ),
    ] {
        let refused = ApplyError::Unlawful {
            byte: place(7, offset),
            held,
            wanted,
        };
        assert_eq!(rt;
            answer(&rt, alloc, &mut partition, seat, &[first, second]),
            Err(refused),
            "{name}"
        );
        assert_eq!(rt; totals(&rt, &partition), before, "{name}");
    }
}

#[test]
fn each_kind_of_holder_is_counted(rt: HostRuntime) {
    let alloc = rt.alloc();
    let mut partition = half_in_a_bin(&rt, alloc);
    let grant = |number| Grant { seat: 0, number };
    let object = |number| Some(Holder::Object(grant(number)));
    let slab = FRONT + 16384;
    let move_one = |partition: &mut Partition, offset, bytes, from, to| {
        make(
            &rt,
            alloc,
            partition,
            0,
            &[part(place(7, offset), bytes, from, to)],
        );
    };
    make(
        &rt,
        alloc,
        &mut partition,
        0,
        &[
            part(place(7, slab), 144, HAND, Some(Holder::Head)),
            part(place(7, slab + 144), 16240, HAND, Some(Holder::Rest)),
        ],
    );
    move_one(
        &mut partition,
        slab + 16304,
        80,
        Some(Holder::Rest),
        object(1),
    );
    move_one(
        &mut partition,
        slab + 16224,
        80,
        Some(Holder::Rest),
        object(2),
    );
    move_one(
        &mut partition,
        slab + 16144,
        80,
        Some(Holder::Rest),
        object(3),
    );
    move_one(
        &mut partition,
        slab + 16224,
        80,
        object(2),
        Some(Holder::Private),
    );
    make(
        &rt,
        alloc,
        &mut partition,
        1,
        &[part(place(7, slab + 16144), 80, object(3), Some(Holder::Hand(1)))],
    );
    make(
        &rt,
        alloc,
        &mut partition,
        1,
        &[part(
            place(7, slab + 16144),
            80,
            Some(Holder::Hand(1)),
            Some(Holder::Public),
        )],
    );
    move_one(&mut partition, FRONT, 16384, BIN, HAND);
    move_one(&mut partition, FRONT, 8192, HAND, Some(Holder::Cached(1)));
    make(
        &rt,
        alloc,
        &mut partition,
        0,
        &[
            part(
                place(7, FRONT + 8192),
                64,
                HAND,
                Some(Holder::LargeHead(grant(4))),
            ),
            part(place(7, FRONT + 8256), 936, HAND, object(4)),
        ],
    );
    move_one(
        &mut partition,
        FRONT + 9192,
        2000,
        HAND,
        Some(Holder::SlabCache(0)),
    );
    move_one(
        &mut partition,
        FRONT + 11192,
        1000,
        HAND,
        Some(Holder::Queue),
    );
    move_one(&mut partition, FRONT + 12192, 3000, HAND, BIN);
    let counted = Totals {
        regions: 1,
        bytes: 33068,
        waste: 300,
        head: 144,
        rest: 16000,
        private: 80,
        public: 80,
        object: 80 + 936,
        large_head: 64,
        slab_cache: 2000,
        cached: 8192,
        bin: 3000,
        queue: 1000,
        hand: 1192,
    };
    assert_eq!(rt; totals(&rt, &partition), counted);
}

#[test]
fn sixty_four_regions_are_counted(rt: HostRuntime) {
    let alloc = rt.alloc();
    let mut partition = Partition::empty(alloc);
    // A judge that went byte by byte would not end in time.
    let bytes = 8388608;
    for region in 0..64 {
        make(
            &rt,
            alloc,
            &mut partition,
            0,
            &[part(place(region, 0), bytes, NOBODY, HAND)],
        );
        make(
            &rt,
            alloc,
            &mut partition,
            0,
            &[part(place(region, 8192), bytes - 8192, HAND, BIN)],
        );
    }
    let counted = totals(&rt, &partition);
    assert_eq!(rt;
        (counted.regions, counted.bytes, counted.hand),
        (64, 64 * bytes, 64 * 8192)
    );
    make(
        &rt,
        alloc,
        &mut partition,
        0,
        &[part(place(40, 8192), bytes - 8192, BIN, HAND)],
    );
    make(
        &rt,
        alloc,
        &mut partition,
        0,
        &[part(place(40, 0), bytes, HAND, NOBODY)],
    );
    let counted = totals(&rt, &partition);
    assert_eq!(rt;
        (counted.regions, counted.bytes, counted.bin),
        (63, 63 * bytes, 63 * (bytes - 8192))
    );
}

#[test]
fn a_move_is_judged_only_where_it_is_well_formed(rt: HostRuntime) {
    let one = |offset, bytes| part(place(0, offset), bytes, NOBODY, HAND);
    for (name, first, second, well) in [
        ("apart", one(0, 8), one(8, 8), true),
        ("no bytes", one(0, 8), one(8, 0), false),
        ("one byte in both", one(0, 9), one(8, 8), false),
        ("one within the other", one(0, 80), one(8, 8), false),
        (
            "up to the last offset",
            one(0, 8),
            one(u64::MAX - 1, 1),
            true,
        ),
        (
            "past the last offset",
            one(0, 8),
            one(u64::MAX - 1, 2),
            false,
        ),
        (
            "in other regions",
            one(0, 8),
            part(place(1, 0), 8, NOBODY, HAND),
            true,
        ),
    ] {
        let mut m = Move {
            seat: 0,
            parts: ArrayVec::new(),
        };
        assert!(rt; m.parts.try_push(first).is_ok());
        assert!(rt; m.parts.try_push(second).is_ok());
        assert_eq!(rt; m.is_well_formed(), well, "{name}");
    }
}

#[test]
fn bytes_past_the_counters_are_not_counted(rt: HostRuntime) {
    let alloc = rt.alloc();
    let mut partition = Partition::empty(alloc);
    make(
        &rt,
        alloc,
        &mut partition,
        0,
        &[part(place(0, 0), u64::MAX - 9, NOBODY, HAND)],
    );
    make(
        &rt,
        alloc,
        &mut partition,
        0,
        &[part(place(1, 0), 9, NOBODY, HAND)],
    );
    assert_eq!(rt; totals(&rt, &partition).bytes, u64::MAX);
    make(
        &rt,
        alloc,
        &mut partition,
        0,
        &[part(place(1, 9), 1, NOBODY, HAND)],
    );
    assert!(rt; !partition.can_count());
}

#[test]
fn a_holder_is_of_its_kind(rt: HostRuntime) {
    assert!(rt; Holder::Hand(3).is(HolderKind::Hand));
    assert!(rt; !Holder::Hand(3).is(HolderKind::Bin));
}

#[test]
fn the_laws_are_called() {
    laws::moves_answer_once();
    laws::moves_keep_one_holder();
    laws::apart_moves_commute();
    laws::totals_follow_moves();
    laws::regions_follow_moves();
    laws::totals_sum();
}
