//! What is read of a board.
ghost use Rattle.std.specs.Prelude.{◌≡◌, IfOk, length};

use crate::board::Board;
use crate::rule::Names;
use std::alloc::{AllocError, Global};

/// Two names, of one thread each.
fn two_names(alloc: Global) -> Result<Names, AllocError>
    ensures { IfOk result (λ names. (length names.owners.items ≡ 2) × (names.threads ≡ 2)) }
{
    let owners = vec![in alloc; 0u64; 2]?;
    Ok(Names { owners, threads: 2 })
}

#[test]
fn names_are_unset_at_first(rt: HostRuntime) -> Result<(), AllocError> {
    let names = two_names(rt.alloc())?;
    let (board, mut pens) = Board::make(rt.alloc(), &names)?;
    assert_eq!(rt; board.look(&mut pens, 1), 0);
    Ok(())
}
