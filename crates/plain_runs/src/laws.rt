//! Laws of whole calls. Each is what a function with an empty body ensures.
ghost use Rattle.plain_runs.specs.Laws.{WholeCallsHold, WholeCallsRun};

/// Whole calls that are served, one after another, are a run of the partition machine: each move is lawful and made
/// where the bytes are, and each answer is legal. The run is of calls alone and ends with the last answer; it asks
/// what the calls ask and answers what `whole` answers, a callback without scripts answers so, and its regions are the
/// first region that such a callback gives. There are fewer calls than grants have numbers.
pub fn whole_calls_run()
    ensures { WholeCallsRun }
{}

/// At the end of that run the partition holds what the lists hold: the totals of each kind of holder are those of the
/// lists, and the objects held are the leaks of the lists, each with all its bytes, in the order of their offsets.
pub fn whole_calls_hold()
    ensures { WholeCallsHold }
{}
