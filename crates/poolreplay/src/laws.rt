//! What a replay's definitions come to. The functions do nothing: each has a law as its contract.
ghost use Rattle.poolreplay.specs.Laws.{ReportsAreOne, StatusesAreOne, TextsAreOne};

/// The bytes settle the report: two texts of which each is a report of the same bytes are equal, plain or not, with
/// moves or without.
pub fn reports_are_one()
    ensures { ReportsAreOne }
{}

/// Words and bytes want one status. So a line is out of turns only where no report is due, and the other way round.
pub fn statuses_are_one()
    ensures { StatusesAreOne }
{}

/// The text is one function of the input: two texts that are due for the same words and bytes are equal, and so are the
/// statuses that they are due with, but for want of memory and for a read that failed.
pub fn texts_are_one()
    ensures { TextsAreOne }
{}
