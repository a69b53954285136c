//! The laws. The functions do nothing: each has a law as its contract.

ghost use Rattle.machine_laws.specs.Laws.{MachinesRun};

use pool_types::Raw;

/// Whatever calls and resets begin and whatever turns are made, the machine's words are those of a state of a run, its
/// seats are what the run's entries and silent turns lead to, and the office lies at home or is the one of a seat.
pub fn machines_run<R: Raw>()
    ensures { MachinesRun R.out R.faults R.got R.passed }
{}
