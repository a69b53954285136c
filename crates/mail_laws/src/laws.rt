//! The laws. The functions do nothing: each has a law as its contract.

ghost use Rattle.mail_laws.specs.Laws.{StepsKeepMail, RunsKeepMail, DutyEndsByOneMailing, SwapGivesWhatWasMailed};
ghost use Rattle.mail_laws.specs.Laws.{FreshPoolsHaveNoMail, NamedMailStands};
ghost use Rattle.mail_laws.specs.Wrong.{TakesBeforeSettlingAreWrong, SecondDutiesAreWrong, StrayMailingsAreWrong};

/// Each step of each seat keeps what holds of mail.
pub fn steps_keep_mail()
    ensures { StepsKeepMail }
{}

/// So does any number of steps.
pub fn runs_keep_mail()
    ensures { RunsKeepMail }
{}

/// In any run of any number of seats the duty to mail a slab is one seat's, and ends when that seat's push wins: then the
/// slab is once in its keeper's mailbox.
pub fn duty_ends_by_one_mailing()
    ensures { DutyEndsByOneMailing }
{}

/// The swap of a mailbox gives the slabs that were mailed there, each of them once.
pub fn swap_gives_what_was_mailed()
    ensures { SwapGivesWhatWasMailed }
{}

/// In a new pool there is no mail.
pub fn fresh_pools_have_no_mail()
    ensures { FreshPoolsHaveNoMail }
{}

/// A boxed slab, one that is owed, one that is fetched and an orphan meet every part.
pub fn named_mail_stands()
    ensures { NamedMailStands }
{}

/// An adopter that takes the public list before it writes the next word is wrong.
pub fn takes_before_settling_are_wrong()
    ensures { TakesBeforeSettlingAreWrong }
{}

/// A push that mails a slab though it found others' objects is wrong.
pub fn second_duties_are_wrong()
    ensures { SecondDutiesAreWrong }
{}

/// A mailing to another mailbox than the keeper's is wrong.
pub fn stray_mailings_are_wrong()
    ensures { StrayMailingsAreWrong }
{}
