//! The rule of the table, and what a seat knows of it.

use atomic_table::TableRule;
use pool_types::{Limits, Policy, Raw};
use regions::Office;
use std::collections::LinkedList;
use step_runs::Entry;

/// What a pool is made with.
#[derive(Clone, Copy)]
pub struct Plan {
    pub policy: Policy,
    pub limits: Limits,
}

/// What is known of a quiet pool: the value of each word, and the office, which its place has taken out of its slot. No
/// value of it is made.
pub struct Note<D> {
    pub words: LinkedList<u64>,
    pub office: D,
}

/// What a seat of the table knows: the entries of the pool's seats that it owns, and the note of a quiet pool. No value
/// of it is made.
pub struct View<D> {
    pub entries: LinkedList<Entry<D>>,
    pub note: Option<Note<D>>,
}

/// The rule: the words, the office's slot and the entries of all views are a state that the pool's runs come to.
pub struct Ruled;

impl<R: Raw> TableRule<Option<Office<R>>, View<Office<R>>, Plan> for Ruled {
    ghost use Rattle.atomic_driver.specs.Rule.{PoolRule, home_of, first_view_of};

    ghost holds = { λ plan s. PoolRule R.out R.faults R.got R.passed plan s.words (home_of s.homes) s.views };

    ghost first = { λ plan. first_view_of plan };
}
