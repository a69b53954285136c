//! The rows of the table of atomic steps, and the changes of a slab's keeper. All of it is this project's own.
ghost use Rattle.std.specs.Prelude.{◌≡◌};
ghost use Rattle.pool_types.specs.Rows.{row_name};

use crate::rows::Row::{
    B1, B2, B3, B4, B5, B6, C1, C2, C3, C4, C5, C6, C7, F1, F2, F3, F4, F5, F6, F7, F8, F9, F10,
    G1, G2, G3, G4, G5, G6, G7, G8, J1, J2, M1, M2, M3, M4, M5, M6, M7, M8, N1, N2, N3, N4, N5, N6,
    N7, O1, O2, O3, O4, O5, O6, O7, O8, P1, P2, P3, P4, P5, P6, Q1, Q2, Q3, Q4, Q5,
};
use crate::values::Place;

/// A row of the table of atomic steps (a kind of atomic action), by its name: a letter for what the step's word belongs
/// to, and a number.
///
/// `M` are marks of objects, `P` public lists of slabs, `N` mail, `O` orphaned slabs, `G` guards of blocks, `B` bins,
/// `Q` the queue of blocks to be joined, `C` the cache of large objects, `F` the office, its regions and kinds of
/// granules, `J` splits and joins of seats. `docs/design.md` says what each does.
#[derive(Clone, Copy, Debug, PartialEq, Eq)]
pub enum Row {
    M1,
    M2,
    M3,
    M4,
    M5,
    M6,
    M7,
    M8,
    P1,
    P2,
    P3,
    P4,
    P5,
    P6,
    N1,
    N2,
    N3,
    N4,
    N5,
    N6,
    N7,
    O1,
    O2,
    O3,
    O4,
    O5,
    O6,
    O7,
    O8,
    G1,
    G2,
    G3,
    G4,
    G5,
    G6,
    G7,
    G8,
    B1,
    B2,
    B3,
    B4,
    B5,
    B6,
    Q1,
    Q2,
    Q3,
    Q4,
    Q5,
    C1,
    C2,
    C3,
    C4,
    C5,
    C6,
    C7,
    F1,
    F2,
    F3,
    F4,
    F5,
    F6,
    F7,
    F8,
    F9,
    F10,
    J1,
    J2,
    /// A call that ends without a step.
    Nothing,
}

/// The rows' names, in the order of the rows.
const NAMES: [&str; 68] = [
    "M1", "M2", "M3", "M4", "M5", "M6", "M7", "M8", "P1", "P2", "P3", "P4", "P5", "P6", "N1", "N2",
    "N3", "N4", "N5", "N6", "N7", "O1", "O2", "O3", "O4", "O5", "O6", "O7", "O8", "G1", "G2", "G3",
    "G4", "G5", "G6", "G7", "G8", "B1", "B2", "B3", "B4", "B5", "B6", "Q1", "Q2", "Q3", "Q4", "Q5",
    "C1", "C2", "C3", "C4", "C5", "C6", "C7", "F1", "F2", "F3", "F4", "F5", "F6", "F7", "F8", "F9",
    "F10", "J1", "J2", "",
];

impl Row {
    /// The rows that name a step, in the order of the table.
    pub const ALL: [Row; 67] = [
        M1, M2, M3, M4, M5, M6, M7, M8, P1, P2, P3, P4, P5, P6, N1, N2, N3, N4, N5, N6, N7, O1, O2,
        O3, O4, O5, O6, O7, O8, G1, G2, G3, G4, G5, G6, G7, G8, B1, B2, B3, B4, B5, B6, Q1, Q2, Q3,
        Q4, Q5, C1, C2, C3, C4, C5, C6, C7, F1, F2, F3, F4, F5, F6, F7, F8, F9, F10, J1, J2,
    ];

    /// Its name in traces and reports.
    pub fn name(self) -> &'static [u8]
        ensures { result.now ≡ row_name self }
    {
        NAMES[self as usize].as_bytes()
    }
}

/// Who keeps a slab (its owner): the thread of a seat, nobody, or a seat that is about to adopt it.
#[derive(Clone, Copy, Debug, PartialEq, Eq)]
pub enum Keeper {
    Seat(u8),
    Orphan,
    Hand(u8),
}

/// A slab, by the place of its first byte, goes from one keeper to another.
#[derive(Clone, Copy, Debug, PartialEq, Eq)]
pub struct KeeperChange {
    pub slab: Place,
    pub from: Keeper,
    pub to: Keeper,
}
