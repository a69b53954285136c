//! The pieces that many lines of a report have in common.
ghost use Rattle.std.specs.Prelude.{◌≡◌, ◌++◌, OnOk};
ghost use Rattle.pool_types.specs.Texts.{names_of, place_text};
ghost use Rattle.report_text.specs.Pieces.{name_of, grant_text, object_text};

use crate::report::NoMemory;
use crate::text::Text;
use pool_types::{Grant, Place, ThreadName};

/// The name of the seat's thread. A seat that has no thread has an empty one.
fn name_of(names: &[ThreadName], seat: u8) -> &[u8]
    ensures { result.now ≡ name_of (names_of names.now) seat }
{
    match names.get(usize::from(seat)) {
        Some(name) => name.bytes.as_slice(),
        None => b"",
    }
}

/// Adds the name of the seat's thread.
pub(crate) fn add_name(text: &mut Text, names: &[ThreadName], seat: u8) -> Result<(), NoMemory>
    ensures added { OnOk result (text.new.begun ≡ text.old.begun ++ name_of (names_of names.now) seat) }
    ensures kept { text.new.whole ≡ text.old.whole }
{
    text.word(name_of(names, seat))
}

/// Adds a grant, as `A#1`.
pub(crate) fn add_grant(text: &mut Text, names: &[ThreadName], grant: Grant) -> Result<(), NoMemory>
    ensures added { OnOk result (text.new.begun ≡ text.old.begun ++ grant_text (names_of names.now) grant) }
    ensures kept { text.new.whole ≡ text.old.whole }
{
    add_name(text, names, grant.seat)?;
    text.worded(b"#", grant.number)
}

/// Adds a place, as `P0.R0+128`.
pub(crate) fn add_place(text: &mut Text, place: Place) -> Result<(), NoMemory>
    ensures added { OnOk result (text.new.begun ≡ text.old.begun ++ place_text place) }
    ensures kept { text.new.whole ≡ text.old.whole }
{
    text.worded(b"P", u64::from(place.pool))?;
    text.worded(b".R", u64::from(place.region))?;
    text.worded(b"+", place.offset)
}

/// Adds an object: its place, its usable bytes, and its grant.
#[tactic(auto, unfolding(crate::specs::Pieces::object_text))]
pub(crate) fn add_object(
    text: &mut Text,
    names: &[ThreadName],
    place: Place,
    usable: u64,
    grant: Grant,
) -> Result<(), NoMemory>
    ensures added { OnOk result (text.new.begun ≡ text.old.begun ++ object_text (names_of names.now) place usable grant) }
    ensures kept { text.new.whole ≡ text.old.whole }
{
    add_place(text, place)?;
    text.worded(b" ", usable)?;
    text.word(b" ")?;
    add_grant(text, names, grant)
}
