//! The law. The function does nothing: it has the law as its contract.

ghost use Rattle.mail_moves.specs.Laws.{MailTurnsAreSteps};

/// Each turn at which a seat mails a slab, takes a mailbox, adopts or pushes back orphans, joins what was given back to
/// one, or leaves a slab, is steps of the whole, to one where the seat's next position is.
pub fn mail_turns_are_steps()
    ensures { MailTurnsAreSteps }
{}
