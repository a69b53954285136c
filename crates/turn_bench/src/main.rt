//! Makes turns of a machine in plain words, so that a script can time them. A line `CASE ROUNDS` of standard input makes
//! the calls of a case so many times over on a new pool, and prints how many calls and turns they were.
//!
//! Modules: `bench` (a machine, and the calls and turns that were made on it) and `cases` (the calls of each case).
#![tactic(auto)]

mod bench;
mod cases;

use crate::bench::Bench;
use crate::cases::Case;
use std::alloc::{AllocError, Global};
use std::io;

/// The case and the rounds that a line names.
fn asked(line: &str) -> Option<(Case, u32)> {
    let (name, rounds) = line.split_once(' ')?;
    let case = Case::named(name)?;
    match rounds.parse::<u32>() {
        Ok(rounds) => Some((case, rounds)),
        Err(_) => None,
    }
}

/// What is printed of a line.
fn reply(alloc: Global, line: &str) -> Result<String, AllocError> {
    let Some((case, rounds)) = asked(line) else {
        return String::from_str(alloc, "a line is CASE ROUNDS");
    };
    let Ok(mut bench) = Bench::make(alloc) else {
        return Err(AllocError);
    };
    case.rounds(alloc, &mut bench, rounds)?;
    let Bench { calls, turns, .. } = bench;
    format!(in alloc; "{calls} calls {turns} turns")
}

fn main(rt: HostRuntime) -> io::Result<()> {
    for line in rt.lines(rt.alloc()) {
        let text = reply(rt.alloc(), line?.as_str())?;
        println!(rt; "{text}")?;
    }
    Ok(())
}
