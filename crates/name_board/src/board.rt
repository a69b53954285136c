//! The board: its words, and how threads wait for them.
ghost use Rattle.std.specs.Prelude.{◌≡◌, ◌≢◌, ℕ, ◌+◌, ◌<◌, ◌≤◌, ◌^◌, ◌∷◌, ◌++◌, [], length, suc, IfOk, List};
ghost use Rattle.name_board.specs.Board.{MayBind, LooksAt, BindsAt, AllSo, first_view, view, cursor, bound};
ghost use Rattle.name_board.specs.Board.{IsPen, HasName};

use crate::rule::{Bind, BoardRule, BoardView, LastPen, Look, Names, Pen, Settle};
use atomic_table::Table;
use std::alloc::{AllocError, Global};
use std::sync::atomic::{AtomicU64, Ordering};
use std::sync::{Condvar, Mutex, Wait};

/// A board that threads share.
///
/// A thread that waits counts itself before it looks again, and a thread that binds a name looks whether any waits
/// after its store; so of two that meet, one sees the other. That is not proved.
#[derive(Drop)]
pub struct Board {
    pub table: Table<(), BoardView, Names, BoardRule, Global>,
    lock: Mutex<()>,
    bell: Condvar,
    waiting: AtomicU64,
    ghost sized: { table.shared.table_id.words ≡ suc (length table.shared.key.owners.items) },
}

impl Board {
    /// A board on which all names are unset, and the spare pen of all threads.
    pub fn make(alloc: Global, names: &Names) -> Result<(Board, Pen), AllocError>
        requires { length names.now.owners.items < 2 ^ 32 }
        ensures names { IfOk result (λ made. made.0.table.shared.key ≡ names.now) }
        ensures pen { IfOk result (λ made. IsPen made.0.table.shared.table_id made.1
            × (made.1.me ≡ (first_view names.now.threads, []))) }
    {
        let words = vec![in alloc; 0u64; names.owners.len() + 1]?;
        let (table, pen) = Table::of_words(alloc, words.as_slice(), names)?;
        Ok((Board::over(table), pen))
    }

    /// The board of a table.
    fn over(table: Table<(), BoardView, Names, BoardRule, Global>) -> Board
        requires { table.shared.table_id.words ≡ suc (length table.shared.key.owners.items) }
        ensures { result.table ≡ table }
    {
        Board {
            table,
            lock: Mutex::new(()),
            bell: Condvar::new(),
            waiting: AtomicU64::new(0),
        }
    }

    /// The name's word, or 0 where it is unset.
    pub fn look(&self, pen: &mut Pen, name: usize) -> u64
        requires pen { IsPen self.now.table.shared.table_id pen.old × HasName self.now.table.shared.key name }
        ensures pen { (pen.new.table_id ≡ pen.old.table_id) × (pen.new.id ≡ pen.old.id) }
        ensures seen { LooksAt name pen.old.me result pen.new.me }
    {
        self.table.shared.load::<Look>(pen, name + 1)
    }

    /// Stores the name's word.
    fn set(&self, pen: &mut Pen, name: usize, value: u64)
        requires pen { IsPen self.now.table.shared.table_id pen.old × HasName self.now.table.shared.key name }
        requires bind { MayBind self.now.table.shared.key.owners.items pen.old.me.0.cursors name × (value ≢ 0) }
        ensures pen { (pen.new.table_id ≡ pen.old.table_id) × (pen.new.id ≡ pen.old.id) }
        ensures bound { BindsAt name pen.old.me value pen.new.me }
    {
        self.table.shared.store::<Bind>(pen, name + 1, value);
    }

    /// Wakes those that wait, where some do.
    fn wake<R: Wait>(&self, rt: &R) {
        if self.waiting.load(Ordering::SeqCst) != 0 {
            let guard = self.lock.lock(rt);
            self.bell.notify_all();
            drop(guard);
        }
    }

    /// Binds the name, and wakes those that wait. It is one of the pen's thread that this thread has not bound.
    pub fn bind<R: Wait>(&self, rt: &R, pen: &mut Pen, name: usize, value: u64)
        requires pen { IsPen self.now.table.shared.table_id pen.old × HasName self.now.table.shared.key name }
        requires bind { MayBind self.now.table.shared.key.owners.items pen.old.me.0.cursors name × (value ≢ 0) }
        ensures pen { (pen.new.table_id ≡ pen.old.table_id) × (pen.new.id ≡ pen.old.id) }
        ensures bound { BindsAt name pen.old.me value pen.new.me }
    {
        self.set(pen, name, value);
        self.wake(rt);
    }

    /// Looks until the name is bound, and sleeps between.
    fn sleep_for<R: Wait>(&self, rt: &R, pen: &mut Pen, name: usize) -> u64
        requires pen { IsPen self.now.table.shared.table_id pen.old × HasName self.now.table.shared.key name }
        ensures pen { (pen.new.table_id ≡ pen.old.table_id) × (pen.new.id ≡ pen.old.id)
            × (pen.new.me.1 ≡ pen.old.me.1) }
        ensures seen { (result ≢ 0)
            × (pen.new.me.0 ≡ view pen.old.me.0.cursors (pen.old.me.0.known ++ bound name result ∷ [])) }
    {
        let mut guard = self.lock.lock(rt);
        for _ in rt.forever() {
            let value = self.look(pen, name);
            if value != 0 {
                return value;
            }
            guard = self.bell.wait(rt, guard);
        }
        unreachable!()
    }

    /// The name's word, once it is bound.
    pub fn wait_for<R: Wait>(&self, rt: &R, pen: &mut Pen, name: usize) -> u64
        requires pen { IsPen self.now.table.shared.table_id pen.old × HasName self.now.table.shared.key name }
        ensures pen { (pen.new.table_id ≡ pen.old.table_id) × (pen.new.id ≡ pen.old.id)
            × (pen.new.me.1 ≡ pen.old.me.1) }
        ensures seen { (result ≢ 0)
            × (pen.new.me.0 ≡ view pen.old.me.0.cursors (pen.old.me.0.known ++ bound name result ∷ [])) }
    {
        let value = self.look(pen, name);
        if value != 0 {
            return value;
        }
        self.waiting.fetch_add(1, Ordering::SeqCst);
        let value = self.sleep_for(rt, pen, name);
        self.waiting.fetch_sub(1, Ordering::SeqCst);
        value
    }

    /// Cuts the last thread's pen off the spare one.
    pub fn split_off(&self, spare: &mut Pen, threads: usize) -> Pen
        requires { IsPen self.now.table.shared.table_id spare.old × (spare.old.me ≡ (first_view (suc threads), [])) }
        ensures spare { (spare.new.table_id ≡ spare.old.table_id) × (spare.new.me ≡ (first_view threads, [])) }
        ensures pen { (result.table_id ≡ spare.old.table_id)
            × (result.me ≡ (view (cursor threads 0 ∷ []) [], [])) }
    {
        self.table.shared.split_seat::<LastPen>(spare)
    }

    /// The spare pen learns what the other knows.
    pub fn join_in(&self, spare: &mut Pen, pen: Pen)
        requires { IsPen self.now.table.shared.table_id spare.old × IsPen self.now.table.shared.table_id pen × (pen.me.1 ≡ []) }
        ensures table { spare.new.table_id ≡ spare.old.table_id }
        ensures both { spare.new.me ≡ (
          view (spare.old.me.0.cursors ++ pen.me.0.cursors)
              (spare.old.me.0.known ++ pen.me.0.known),
          spare.old.me.1,
        ) }
    {
        self.table.shared.join_seat::<LastPen>(spare, pen);
    }

    /// All names that were seen are what the words say, at once.
    pub fn settle(&self, spare: &mut Pen)
        requires { IsPen self.now.table.shared.table_id spare.old }
        ensures same { (spare.new.table_id ≡ spare.old.table_id) × (spare.new.me ≡ spare.old.me) }
        ensures so { (words : List ℕ) × AllSo words spare.old.me.0.known }
    {
        self.table.shared.load::<Settle>(spare, 0);
    }
}
