//! The header word of a slab, in which its record is left for whoever keeps the slab next. The class and the index
//! stand elsewhere.
//!
//! From the lowest bit on the word has three numbers of 11 bits: how many objects were handed out, how many are held,
//! and the newest private object's number plus 1, or 0 where there is none. All higher bits are 0. A slab has at most
//! 2032 objects, so each number has room. The word is this project's own.
ghost use Rattle.std.specs.Prelude.{◌≡◌, IsNone, IfSome, ◌↔◌, Some};
ghost use Rattle.slab_core.specs.Slabs.{IsValid};
ghost use Rattle.slab_core.specs.Headers.{to_header, IsHeaderOf, record_in, object_in, head_word};

use crate::SlabRec;
use size_classes::Class;

/// Where the number of objects that are held begins, in bits.
const COUNT_SHIFT: u32 = 11;

/// Where the head begins, in bits.
const HEAD_SHIFT: u32 = 22;

/// How many bits a header has.
const HEADER_BITS: u32 = 33;

/// The lowest 11 bits, where a number stands once it was shifted down.
const FIELD: u64 = 2047;

impl SlabRec {
    /// The slab's header word. It needs a valid record.
    pub fn to_header(&self) -> u64
        requires { IsValid self.now }
        ensures { result ≡ to_header self.now }
    {
        u64::from(self.handed)
            | u64::from(self.count) << COUNT_SHIFT
            | head_word(self.head) << HEAD_SHIFT
    }

    /// The record of a slab of this class, whose first granule has this index, by its header word. None is the answer
    /// exactly where the word is the header of no valid record of that class. The header of a record gives that record
    /// again.
    pub fn of_header(class: Class, index: u32, word: u64) -> Option<SlabRec>
        ensures none { IsNone result ↔ ((slab : SlabRec) → ¬ IsHeaderOf class word slab) }
        ensures header { IfSome result (λ slab. IsHeaderOf class word slab) }
        ensures index { IfSome result (λ slab. slab.index ≡ index) }
        ensures again { (slab : SlabRec) → IsHeaderOf class word slab → result ≡ Some (record slab { index = index }) }
    {
        let slab = record_in(class, index, word);
        if word >> HEADER_BITS == 0 && slab.is_valid() {
            Some(slab)
        } else {
            None
        }
    }
}

/// An object's number plus 1, and 0 where there is none.
fn head_word(head: Option<u32>) -> u64
    ensures { result ≡ head_word head }
{
    match head {
        Some(object) => u64::from(object) + 1,
        None => 0,
    }
}

/// The object whose number plus 1 this is, and none at 0.
fn object_in(field: u32) -> Option<u32>
    ensures { result ≡ object_in field }
{
    field.checked_sub(1)
}

/// The record that a word's three numbers make. It need not be valid.
fn record_in(class: Class, index: u32, word: u64) -> SlabRec
    ensures { result ≡ record_in class index word }
{
    SlabRec {
        class,
        index,
        handed: (word & FIELD) as u32,
        head: object_in((word >> HEAD_SHIFT & FIELD) as u32),
        count: (word >> COUNT_SHIFT & FIELD) as u32,
    }
}
