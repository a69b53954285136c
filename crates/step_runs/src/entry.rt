//! What is known of a seat as of its last step on a word. No value of these is made.

use pool_types::{Answer, Request, Row};
use pool_words::Action;
use std::collections::LinkedList;
use step_local::{Local, Object};

/// A step on a word: its kind, the action, and the value that it found; 0 for a store.
pub struct Made {
    pub row: Row,
    pub action: Action,
    pub found: u64,
}

/// A call whose answer came with a step on a word, and the answer.
pub struct Told {
    pub request: Request,
    pub answer: Answer,
}

/// A seat as of its last step on a word: its number and its local, what the office has where the seat has taken it, the
/// objects that its steps granted and those whose grants they ended, its answers, and the steps.
pub struct Entry<D> {
    pub seat: u8,
    pub local: Local,
    pub desk: Option<D>,
    pub grants: LinkedList<Object>,
    pub frees: LinkedList<Object>,
    pub answers: LinkedList<Told>,
    pub rows: LinkedList<Made>,
}
