//! The laws. The functions do nothing: each has a law as its contract.

ghost use Rattle.run_laws.specs.Laws.{RunsAreOne, SumsAreOne, TextsRunToOne, TextsSumToOne};

/// Two results that the run of a trace may have, of which neither is want of memory, are one: the same report, or the
/// same line that is out of turns.
pub fn runs_are_one()
    ensures { RunsAreOne }
{}

/// The same of the summary of a trace.
pub fn sums_are_one()
    ensures { SumsAreOne }
{}

/// And so are two results that runs of the traces of one text have: what a text comes to is settled by its bytes.
pub fn texts_run_to_one()
    ensures { TextsRunToOne }
{}

/// The same of the summary of a text.
pub fn texts_sum_to_one()
    ensures { TextsSumToOne }
{}
