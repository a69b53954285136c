//! The rule of the board's table, and what a thread knows of it.

use atomic_table::{Join, Play, Seat, Shared, Split, TableRule};
use std::collections::LinkedList;

/// Which thread binds each name, by the name's number, and how many threads there are.
#[derive(Drop)]
pub struct Names {
    pub owners: Vec<u64>,
    pub threads: u64,
}

/// The thread's names from this one on are unset. No value of it is made.
pub struct Cursor {
    pub thread: u64,
    pub from: u64,
}

/// A name's word that was seen. No value of it is made.
pub struct Bound {
    pub name: u64,
    pub value: u64,
}

/// What a pen knows of the board: how far the threads are whose pen it is, and the words that it has seen. No value of
/// it is made.
pub struct BoardView {
    pub cursors: LinkedList<Cursor>,
    pub known: LinkedList<Bound>,
}

/// The rule: a word is 0 before its thread has bound its name, and what a pen has seen of a name is the name's word.
pub struct BoardRule;

impl TableRule<(), BoardView, Names> for BoardRule {
    ghost use Rattle.name_board.specs.Board.{Kept, first_view};

    ghost holds = { λ key s. Kept key.owners.items s.words s.views };

    ghost first = { λ key. first_view key.threads };
}

/// A load of a name's word.
pub(crate) struct Look;

impl Play<(), BoardView> for Look {
    ghost use Rattle.name_board.specs.Board.{Looks};

    ghost then = { λ s. Looks s.word };
}

/// A store in a name's word.
pub(crate) struct Bind;

impl Play<(), BoardView> for Bind {
    ghost use Rattle.name_board.specs.Board.{Binds};

    ghost then = { λ s. Binds s.word };
}

/// A load that tells of all words at once.
pub(crate) struct Settle;

impl Play<(), BoardView> for Settle {
    ghost use Rattle.name_board.specs.Board.{Settles};

    ghost then = { λ _. Settles };
}

/// The last thread's pen is cut off, or joined to another.
pub(crate) struct LastPen;

impl Split<BoardView> for LastPen {
    ghost use Rattle.std.specs.Prelude.{◌∷◌, []};
    ghost use Rattle.name_board.specs.Board.{view, front_of, last_of};

    ghost left = { λ v. view (front_of v.cursors) v.known };

    ghost right = { λ v. view (last_of v.cursors ∷ []) [] };
}

impl Join<BoardView> for LastPen {
    ghost use Rattle.std.specs.Prelude.{◌++◌, []};
    ghost use Rattle.name_board.specs.Board.{view};

    ghost both = { λ v w. view (v.cursors ++ w.cursors) (v.known ++ w.known) };

    ghost spent = { view [] [] };
}

/// The board's words.
pub type Sheet = Shared<(), BoardView, Names, BoardRule>;

/// What a thread reads and binds names with. A spare one has the threads whose pens are not cut off yet.
pub type Pen = Seat<(), BoardView>;
