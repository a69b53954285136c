//! Which thread binds which name, and how many lines are a thread's.
ghost use Rattle.std.specs.Prelude.{◌≡◌, ◌≤◌, IfOk, length};
ghost use Rattle.thread_calls.specs.Script.{binder, owners_of, count_own};

use crate::calls::{name_bound, own_call};
use name_board::Names;
use std::alloc::{AllocError, Global};
use trace_reader::{Act, TraceLine};

/// The thread whose line binds a name, if the line does.
fn binder(act: &Act) -> Option<u8>
    ensures { result ≡ binder act.now }
{
    match act {
        Act::Call { thread, call, .. } | Act::Begin { thread, call, .. } => {
            name_bound(call).map(|_name| *thread)
        }
        _ => None,
    }
}

/// Which thread binds each of the names of these lines, by the names' numbers, of so many threads.
pub fn names_of(alloc: Global, lines: &[TraceLine], threads: usize) -> Result<Names, AllocError>
    ensures owners { IfOk result (λ names. names.owners.items ≡ owners_of lines.now) }
    ensures threads { IfOk result (λ names. names.threads ≡ threads) }
{
    let mut owners = Vec::new(alloc);
    for line in lines {
        if let Some(thread) = binder(&line.act) {
            owners.push(u64::from(thread))?;
        }
    }
    Ok(Names {
        owners,
        threads: threads as u64,
    })
}

/// How many of the lines make a call of this thread.
pub fn count_own(thread: u8, lines: &[TraceLine]) -> usize
    ensures { result ≡ count_own thread lines.now }
{
    let mut count = 0;
    for line in lines {
        if own_call(thread, &line.act).is_some() {
            count += 1;
        }
    }
    count
}
