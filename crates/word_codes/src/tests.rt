//! Words by their bits, worked out by hand, and the units of a small region.

use crate::guards::Guard;
use crate::kinds::Kind;
use crate::links::link_word;
use crate::locks::lock_word;
use crate::marks::Mark;
use crate::nexts::{MailKey, Next};
use crate::owns::Own;
use crate::publics::Public;
use crate::queue_links::QueueLink;
use crate::region_words::RegionWord;
use pool_types::Grant;

/// A value of each kind of word.
#[test]
fn words_have_their_layout(rt: HostRuntime) {
    let grant = Grant { seat: 5, number: 3 };
    let block = QueueLink {
        next: Some(1),
        granules: 3,
    };
    let table: [(u64, u64); 13] = [
        (Mark::Granted(grant).word(), 0x629),
        (Mark::Hand(63).word(), 0x1fa),
        (Mark::Link(2047).word(), 0x3ffb),
        (Kind::Slab(25).word(), 0xc9),
        (
            Kind::Large {
                first: 6,
                granules: 2,
            }
            .word(),
            0x10_0033,
        ),
        (Own::Kept(0).word(), 2),
        (Public::Filled(0).word(), 2),
        (Next::Mailbox(MailKey { seat: 1, class: 2 }).word(), 0x403),
        (Next::Link(Some(4)).word(), 10),
        (Guard::Free(7).word(), 10),
        (block.word(), 0x3_0000_0002),
        (link_word(Some(0)), 1),
        (lock_word(0), 1),
    ];
    for (word, bits) in table {
        assert_eq!(rt; word, bits, "at {bits}");
    }
}

/// A region of two granules whose first granule, of index 3, lies 4096 bytes behind its begin.
#[test]
fn regions_have_units(rt: HostRuntime) {
    let region = RegionWord {
        live: true,
        number: 1,
        first: 3,
        granules: 2,
        waste: 4096,
    };
    assert_eq!(rt; region.word(), 0x8000_0040_0180_0003);
    let table: [(u64, Option<u64>); 6] = [
        (4095, None),
        (4096, Some(3072)),
        (4100, None),
        (4104, Some(3073)),
        (20472, Some(5119)),
        (20480, None),
    ];
    for (offset, unit) in table {
        assert_eq!(rt; region.unit_in(offset), unit, "at {offset}");
    }
    assert_eq!(rt; region.offset_of(5119), 20472);
    for (alignment, unit) in [(0, 3080), (64, 3080), (4096, 3584)] {
        assert_eq!(rt;
            region.large_unit(4096, 3, alignment),
            unit,
            "at {alignment}"
        );
    }
}
