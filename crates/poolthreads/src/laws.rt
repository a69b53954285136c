//! What the definitions of a run by threads come to. The function does nothing: it has a law as its contract.
ghost use Rattle.poolthreads.specs.Laws.{StatusesAreOne};

/// Words and bytes want one status.
pub fn statuses_are_one()
    ensures { StatusesAreOne }
{}
