//! The laws. The functions do nothing: each has a law as its contract.

ghost use Rattle.leak_laws.specs.Laws.{LeaksWereGranted};

use pool_types::Raw;

/// In each state that a pool's seats come to, each leak is an object that a seat was granted and that no seat has
/// ended, and no grant is listed twice.
pub fn leaks_were_granted<R: Raw>()
    ensures { LeaksWereGranted R.out R.faults R.got R.passed }
{}
