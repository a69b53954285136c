//! A thread's lines, one after another. This project's own.
ghost use Rattle.std.specs.Prelude.{◌≡◌, ◌≢◌, ℕ, ◌+◌, ◌<◌, ◌++◌, ◌∷◌, [], List, Some, length, suc, vec_len, vec_capacity, ◌≤◌};
ghost use Rattle.crossbeam_utils.specs.Padded.{padded_value};
ghost use Rattle.name_board.specs.Board.{IsPen, HasName, MayBind, IsKnown};
ghost use Rattle.name_board.specs.declared.rule.Bound.{Bound};
ghost use Rattle.trace_reader.specs.Acts.{bound_by};
ghost use Rattle.thread_lines.specs.Binding.{AddsBound, AddsKnown};
ghost use Rattle.thread_calls.specs.Calls.{own_call, name_asked};
ghost use Rattle.thread_lines.specs.Heaps.{AreHeaps};
ghost use Rattle.thread_calls.specs.Script.{IsScript};
ghost use Rattle.thread_lines.specs.Working.{Works, SpeaksBy, moved_on};

use crate::asking::ask;
use crate::gate::Gate;
use crossbeam_utils::CachePadded;
use name_board::{Board, Pen};
use pool_api::{Heap, Table};
use pool_types::Raw;
use std::sync::Wait;
use thread_calls::{
    NULL_WORD, OwnCall, Said, name_asked, name_bound, own_call, request_with, word_of,
};
use trace_reader::{TraceCall, TraceLine};

/// A thread: which line is its next, its heaps, by the pools' numbers, its pen on the board, and what its calls came to.
#[derive(Drop)]
pub struct Worker<R: Raw> {
    pub thread: u8,
    pub next: usize,
    pub heaps: Vec<Option<Heap<R>>>,
    pub pen: Pen,
    pub said: CachePadded<Vec<Said>>,
}

/// The word of the name that the call is asked of, once it is bound. It is that of null where no name is asked.
fn wait_for_asked<W: Wait>(rt: &W, board: &Board, pen: &mut Pen, call: &TraceCall) -> u64
    requires pen { IsPen board.now.table.shared.table_id pen.old }
    requires name { (name : ℕ) → name_asked call.now ≡ Some name → HasName board.now.table.shared.key name }
    ensures pen { (pen.new.table_id ≡ pen.old.table_id) × (pen.new.me.1 ≡ pen.old.me.1)
        × (pen.new.me.0.cursors ≡ pen.old.me.0.cursors) }
    ensures known { AddsKnown pen.old.me.0.known pen.new.me.0.known }
    ensures asked { (name : ℕ) → name_asked call.now ≡ Some name → IsKnown pen.new.me.0.known name result }
{
    match name_asked(call) {
        Some(name) => board.wait_for(rt, pen, name as usize),
        None => NULL_WORD,
    }
}

/// Binds the name that the call binds, if any.
fn bind_if<W: Wait>(rt: &W, board: &Board, pen: &mut Pen, call: &TraceCall, word: u64)
    requires pen { IsPen board.now.table.shared.table_id pen.old }
    requires name { (name : ℕ) → bound_by call.now ≡ Some name → HasName board.now.table.shared.key name
        × MayBind board.now.table.shared.key.owners.items pen.old.me.0.cursors name }
    requires word { word ≢ 0 }
    ensures pen { (pen.new.table_id ≡ pen.old.table_id) × (pen.new.me.1 ≡ pen.old.me.1) }
    ensures bound { AddsBound (bound_by call.now) word pen.old.me.0 pen.new.me.0 }
{
    if let Some(name) = name_bound(call) {
        board.bind(rt, pen, name as usize, word);
    }
}

/// Keeps what a call came to. There is room for it.
fn keep(said: &mut CachePadded<Vec<Said>>, one: Said)
    requires { vec_len (padded_value said.old) < vec_capacity (padded_value said.old) }
    ensures items { (padded_value said.new).items ≡ (padded_value said.old).items ++ one ∷ [] }
    ensures len { vec_len (padded_value said.new) ≡ vec_len (padded_value said.old) + 1 }
    ensures capacity { vec_capacity (padded_value said.old) ≤ vec_capacity (padded_value said.new) }
{
    if said.push(one).is_err() {
        unreachable!();
    }
}

/// The number of the thread's next call, from 1 on.
fn call_number(said: &[Said]) -> u32 {
    ((said.len() % 4294967296) as u32).wrapping_add(1)
}

/// Makes the thread's call of its next line.
fn make_call<R: Raw, W: Wait, G: Gate>(
    rt: &W,
    pools: &[Option<Table<R>>],
    board: &Board,
    gate: &G,
    own: &OwnCall,
    worker: &mut Worker<R>,
)
    requires pen { IsPen board.now.table.shared.table_id worker.old.pen }
    requires heaps { AreHeaps R.out R.faults R.got R.passed pools.now worker.old.thread worker.old.heaps.items }
    requires asked { (name : ℕ) → name_asked own.now.call ≡ Some name → HasName board.now.table.shared.key name }
    requires bound { (name : ℕ) → bound_by own.now.call ≡ Some name → HasName board.now.table.shared.key name
        × MayBind board.now.table.shared.key.owners.items worker.old.pen.me.0.cursors name }
    requires room { vec_len (padded_value worker.old.said) < vec_capacity (padded_value worker.old.said) }
    ensures same { (worker.new.thread ≡ worker.old.thread) × (worker.new.next ≡ worker.old.next) }
    ensures heaps { AreHeaps R.out R.faults R.got R.passed pools.now worker.new.thread worker.new.heaps.items }
    ensures said { SpeaksBy own.now worker.old worker.new }
{
    gate.pass(rt, worker.thread, call_number(worker.said.as_slice()));
    let word = wait_for_asked(rt, board, &mut worker.pen, &own.call);
    let request = request_with(word, &own.call);
    let said = ask(
        rt,
        worker.thread,
        pools,
        worker.heaps.as_mut_slice(),
        own.pool,
        request,
    );
    bind_if(rt, board, &mut worker.pen, &own.call, word_of(said));
    keep(&mut worker.said, said);
}

/// Runs the thread's next line, if it is the thread's own. It is its next line still.
fn serve_next<R: Raw, W: Wait, G: Gate>(
    rt: &W,
    pools: &[Option<Table<R>>],
    board: &Board,
    lines: &[TraceLine],
    gate: &G,
    worker: &mut Worker<R>,
)
    requires script { IsScript board.now.table.shared.key lines.now }
    requires works { Works R.out R.faults R.got R.passed pools.now board.now.table.shared.table_id lines.now worker.old }
    requires some { worker.old.next < length lines.now }
    ensures works { Works R.out R.faults R.got R.passed pools.now board.now.table.shared.table_id lines.now
        (moved_on worker.new) }
    ensures same { (worker.new.thread ≡ worker.old.thread) × (worker.new.next ≡ worker.old.next) }
{
    let line = lines[worker.next];
    match own_call(worker.thread, &line.act) {
        Some(own) => make_call(rt, pools, board, gate, &own, worker),
        None => {}
    }
}

/// Runs the thread's next line, if it is the thread's own, and goes on to the one behind it.
pub fn serve<R: Raw, W: Wait, G: Gate>(
    rt: &W,
    pools: &[Option<Table<R>>],
    board: &Board,
    lines: &[TraceLine],
    gate: &G,
    worker: &mut Worker<R>,
)
    requires script { IsScript board.now.table.shared.key lines.now }
    requires works { Works R.out R.faults R.got R.passed pools.now board.now.table.shared.table_id lines.now worker.old }
    requires some { worker.old.next < length lines.now }
    ensures works { Works R.out R.faults R.got R.passed pools.now board.now.table.shared.table_id lines.now worker.new }
    ensures thread { worker.new.thread ≡ worker.old.thread }
    ensures next { worker.new.next ≡ worker.old.next + 1 }
{
    serve_next(rt, pools, board, lines, gate, worker);
    worker.next += 1;
}

/// Runs all lines that the thread has not run.
pub fn serve_all<R: Raw, W: Wait, G: Gate>(
    rt: &W,
    pools: &[Option<Table<R>>],
    board: &Board,
    lines: &[TraceLine],
    gate: &G,
    mut worker: Worker<R>,
) -> Worker<R>
    requires script { IsScript board.now.table.shared.key lines.now }
    requires works { Works R.out R.faults R.got R.passed pools.now board.now.table.shared.table_id lines.now worker }
    ensures works { Works R.out R.faults R.got R.passed pools.now board.now.table.shared.table_id lines.now result }
    ensures thread { result.thread ≡ worker.thread }
    ensures all { result.next ≡ length lines.now }
{
    while worker.next < lines.len() {
        serve(rt, pools, board, lines, gate, &mut worker);
    }
    worker
}
