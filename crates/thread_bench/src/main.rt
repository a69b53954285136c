//! Makes calls of heaps on threads, so that a script can time them. A line `CASE THREADS ROUNDS` of standard input makes
//! the calls of a case so many times over by each of so many threads, on a new pool that they share, and prints how many
//! calls they were.
//!
//! Modules: `seats` (a thread's heap, and the objects that it is to free) and `cases` (the calls of each case).
#![tactic(auto)]

mod cases;
mod seats;

use crate::cases::{Case, run_case};
use std::alloc::{AllocError, Global};
use std::io;
use std::sync::Wait;
use std::thread::Threads;

/// What a line asks for.
struct Order {
    case: Case,
    threads: u8,
    rounds: u32,
}

/// The case, the threads and the rounds that a line names.
fn asked(line: &str) -> Option<Order> {
    let (name, numbers) = line.split_once(' ')?;
    let (threads, rounds) = numbers.split_once(' ')?;
    Some(Order {
        case: Case::named(name)?,
        threads: threads.parse::<u8>().ok()?,
        rounds: rounds.parse::<u32>().ok()?,
    })
}

/// What is printed of a line.
fn reply<W: Threads + Wait + Sync>(
    rt: &W,
    alloc: Global,
    line: &str,
) -> Result<String, AllocError> {
    let Some(
        Order {
            case,
            threads,
            rounds,
        },
    ) = asked(line)
    else {
        return String::from_str(alloc, "a line is CASE THREADS ROUNDS");
    };
    match run_case(rt, alloc, case, threads, rounds)? {
        Some(calls) => format!(in alloc; "{calls} calls"),
        None => String::from_str(alloc, "a pool has 1 to 64 threads"),
    }
}

fn main(rt: HostRuntime) -> io::Result<()> {
    for line in rt.lines(rt.alloc()) {
        let text = reply(&rt, rt.alloc(), line?.as_str())?;
        println!(rt; "{text}")?;
    }
    Ok(())
}
