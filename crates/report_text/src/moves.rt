//! The lines of moves.
ghost use Rattle.std.specs.Prelude.{◌≡◌, ◌++◌, OnOk};
ghost use Rattle.pool_types.specs.Texts.{names_of};
ghost use Rattle.report_text.specs.Pieces.{name_of, grant_text};
ghost use Rattle.report_text.specs.Moves.{holder_text, side_text, keeper_text, step_text, range_text, sides_text, keepers_text, move_text, keeper_move_text};

use crate::pieces::{add_grant, add_name, add_place};
use crate::report::NoMemory;
use crate::text::Text;
use part_model::{Holder, Part, Range};
use pool_types::{Grant, Keeper, KeeperChange, Row, ThreadName};

/// Adds a word, and then a grant.
fn add_word_and_grant(
    text: &mut Text,
    word: &[u8],
    names: &[ThreadName],
    grant: Grant,
) -> Result<(), NoMemory>
    ensures added { OnOk result (text.new.begun ≡ text.old.begun ++ (word.now ++ grant_text (names_of names.now) grant)) }
    ensures kept { text.new.whole ≡ text.old.whole }
{
    text.word(word)?;
    add_grant(text, names, grant)
}

/// Adds a word, and then the name of the seat's thread.
fn add_word_and_name(
    text: &mut Text,
    word: &[u8],
    names: &[ThreadName],
    seat: u8,
) -> Result<(), NoMemory>
    ensures added { OnOk result (text.new.begun ≡ text.old.begun ++ (word.now ++ name_of (names_of names.now) seat)) }
    ensures kept { text.new.whole ≡ text.old.whole }
{
    text.word(word)?;
    add_name(text, names, seat)
}

/// Adds who holds bytes.
fn add_holder(text: &mut Text, names: &[ThreadName], holder: Holder) -> Result<(), NoMemory>
    ensures added { OnOk result (text.new.begun ≡ text.old.begun ++ holder_text (names_of names.now) holder) }
    ensures kept { text.new.whole ≡ text.old.whole }
{
    match holder {
        Holder::Waste => text.word(b"waste"),
        Holder::Head => text.word(b"head"),
        Holder::Rest => text.word(b"rest"),
        Holder::Private => text.word(b"private"),
        Holder::Public => text.word(b"public"),
        Holder::Object(grant) => add_word_and_grant(text, b"object:", names, grant),
        Holder::LargeHead(grant) => add_word_and_grant(text, b"large-head:", names, grant),
        Holder::SlabCache(seat) => add_word_and_name(text, b"slab-cache:", names, seat),
        Holder::Cached(granules) => text.worded(b"cached:", u64::from(granules)),
        Holder::Bin => text.word(b"bin"),
        Holder::Queue => text.word(b"queue"),
        Holder::Hand(seat) => add_word_and_name(text, b"hand:", names, seat),
    }
}

/// Adds one side of a move.
fn add_side(text: &mut Text, names: &[ThreadName], side: Option<Holder>) -> Result<(), NoMemory>
    ensures added { OnOk result (text.new.begun ≡ text.old.begun ++ side_text (names_of names.now) side) }
    ensures kept { text.new.whole ≡ text.old.whole }
{
    match side {
        Some(holder) => add_holder(text, names, holder),
        None => text.word(b"none"),
    }
}

/// Adds who keeps a slab.
fn add_keeper(text: &mut Text, names: &[ThreadName], keeper: Keeper) -> Result<(), NoMemory>
    ensures added { OnOk result (text.new.begun ≡ text.old.begun ++ keeper_text (names_of names.now) keeper) }
    ensures kept { text.new.whole ≡ text.old.whole }
{
    match keeper {
        Keeper::Seat(seat) => add_name(text, names, seat),
        Keeper::Orphan => text.word(b"orphan"),
        Keeper::Hand(seat) => add_word_and_name(text, b"hand:", names, seat),
    }
}

/// Adds a move's number, its thread and its row.
#[tactic(auto, unfolding(crate::specs::Moves::step_text))]
fn add_step(
    text: &mut Text,
    names: &[ThreadName],
    number: u64,
    seat: u8,
    row: Row,
) -> Result<(), NoMemory>
    ensures added { OnOk result (text.new.begun ≡ text.old.begun ++ step_text (names_of names.now) number seat row) }
    ensures kept { text.new.whole ≡ text.old.whole }
{
    text.number(number)?;
    text.word(b" ")?;
    add_name(text, names, seat)?;
    text.word(b" ")?;
    text.word(row.name())
}

/// Adds the place of bytes in a row, and how many they are.
#[tactic(auto, unfolding(crate::specs::Moves::range_text))]
fn add_range(text: &mut Text, range: Range) -> Result<(), NoMemory>
    ensures added { OnOk result (text.new.begun ≡ text.old.begun ++ range_text range) }
    ensures kept { text.new.whole ≡ text.old.whole }
{
    add_place(text, range.place)?;
    text.worded(b" ", range.bytes)
}

/// Adds from which holder to which bytes go.
#[tactic(auto, unfolding(crate::specs::Moves::sides_text))]
fn add_sides(text: &mut Text, names: &[ThreadName], part: Part) -> Result<(), NoMemory>
    ensures added { OnOk result (text.new.begun ≡ text.old.begun ++ sides_text (names_of names.now) part) }
    ensures kept { text.new.whole ≡ text.old.whole }
{
    add_side(text, names, part.from)?;
    text.word(b" ")?;
    add_side(text, names, part.to)
}

/// Adds from which keeper to which a slab goes.
#[tactic(auto, unfolding(crate::specs::Moves::keepers_text))]
fn add_keepers(text: &mut Text, names: &[ThreadName], change: KeeperChange) -> Result<(), NoMemory>
    ensures added { OnOk result (text.new.begun ≡ text.old.begun ++ keepers_text (names_of names.now) change) }
    ensures kept { text.new.whole ≡ text.old.whole }
{
    add_keeper(text, names, change.from)?;
    text.word(b" ")?;
    add_keeper(text, names, change.to)
}

/// Adds the line of a part of a move.
#[tactic(auto, unfolding(crate::specs::Moves::move_text))]
pub(crate) fn add_move(
    text: &mut Text,
    names: &[ThreadName],
    number: u64,
    seat: u8,
    row: Row,
    part: Part,
) -> Result<(), NoMemory>
    ensures added { OnOk result (text.new.begun ≡ text.old.begun ++ move_text (names_of names.now) number seat row part) }
    ensures kept { text.new.whole ≡ text.old.whole }
{
    text.word(b"move ")?;
    add_step(text, names, number, seat, row)?;
    text.word(b" ")?;
    add_range(text, part.range)?;
    text.word(b" ")?;
    add_sides(text, names, part)?;
    text.word(b"\n")
}

/// Adds the line of a slab that goes to another keeper.
#[tactic(auto, unfolding(crate::specs::Moves::keeper_move_text))]
pub(crate) fn add_keeper_move(
    text: &mut Text,
    names: &[ThreadName],
    number: u64,
    seat: u8,
    row: Row,
    change: KeeperChange,
) -> Result<(), NoMemory>
    ensures added { OnOk result (text.new.begun ≡ text.old.begun ++ keeper_move_text (names_of names.now) number seat row change) }
    ensures kept { text.new.whole ≡ text.old.whole }
{
    text.word(b"keeper ")?;
    add_step(text, names, number, seat, row)?;
    text.word(b" ")?;
    add_place(text, change.slab)?;
    text.word(b" ")?;
    add_keepers(text, names, change)?;
    text.word(b"\n")
}
