//! The texts of answers.
ghost use Rattle.std.specs.Prelude.{◌≡◌, ◌++◌, [], OnOk, codes};
ghost use Rattle.std.specs.Fmt.{decimal};
ghost use Rattle.pool_types.specs.Texts.{names_of};
ghost use Rattle.report_text.specs.Answers.{looks_text, cause_text, found_text, answer_text};

use crate::pieces::{add_grant, add_object};
use crate::report::NoMemory;
use crate::text::Text;
use pool_types::{Answer, Found, Looks, NullCause, ThreadName};

/// Adds that none of the blocks in the bins looked at fitted.
#[tactic(auto, unfolding(crate::specs::Answers::looks_text))]
fn add_looks(text: &mut Text, looks: Looks) -> Result<(), NoMemory>
    ensures added { OnOk result (text.new.begun ≡ text.old.begun ++ looks_text looks) }
    ensures kept { text.new.whole ≡ text.old.whole }
{
    let Looks { first, last, seen } = looks;
    text.worded(b"no-fit ", u64::from(first))?;
    text.worded(b"..", u64::from(last))?;
    text.worded(b" ", u64::from(seen))
}

/// Adds a word and two numbers.
fn add_two(text: &mut Text, word: &[u8], one: u32, other: u32) -> Result<(), NoMemory>
    ensures added { OnOk result (text.new.begun ≡ text.old.begun ++ (word.now ++ (decimal one ++ (codes " " ++ decimal other)))) }
    ensures kept { text.new.whole ≡ text.old.whole }
{
    text.worded(word, u64::from(one))?;
    text.worded(b" ", u64::from(other))
}

/// Adds why a call answered null.
fn add_cause(text: &mut Text, cause: NullCause) -> Result<(), NoMemory>
    ensures added { OnOk result (text.new.begun ≡ text.old.begun ++ cause_text cause) }
    ensures kept { text.new.whole ≡ text.old.whole }
{
    match cause {
        NullCause::BadRequest => text.word(b"bad-request"),
        NullCause::FreedByRealloc => text.word(b"freed"),
        NullCause::NumbersSpent => text.word(b"numbers-spent"),
        NullCause::TooLarge { granules } => text.worded(b"too-large ", granules),
        NullCause::RawFailed => text.word(b"raw-failed"),
        NullCause::SpanFull { asked, greatest } => add_two(text, b"span-full ", asked, greatest),
        NullCause::RegionsFull { out, next } => add_two(text, b"regions-full ", out, next),
        NullCause::NoFit(looks) => add_looks(text, looks),
    }
}

/// Adds what a call found in the place of an object.
fn add_found(text: &mut Text, names: &[ThreadName], found: Found) -> Result<(), NoMemory>
    ensures added { OnOk result (text.new.begun ≡ text.old.begun ++ found_text (names_of names.now) found) }
    ensures kept { text.new.whole ≡ text.old.whole }
{
    match found {
        Found::NoPlace => text.word(b"place"),
        Found::NoGrant => text.word(b"none"),
        Found::Other(grant) => add_grant(text, names, grant),
    }
}

/// Adds that a call found something else in the place of an object.
fn add_not_held(text: &mut Text, names: &[ThreadName], found: Found) -> Result<(), NoMemory>
    ensures added { OnOk result (text.new.begun ≡ text.old.begun ++ answer_text (names_of names.now) (Answer.NotHeld found)) }
    ensures kept { text.new.whole ≡ text.old.whole }
{
    text.word(b"not-held ")?;
    add_found(text, names, found)
}

/// Adds a null and its cause.
fn add_null(text: &mut Text, cause: NullCause) -> Result<(), NoMemory>
    ensures added { OnOk result (text.new.begun ≡ text.old.begun ++ answer_text [] (Answer.Null cause)) }
    ensures kept { text.new.whole ≡ text.old.whole }
{
    text.word(b"null ")?;
    add_cause(text, cause)
}

/// Adds an answer.
pub(crate) fn add_answer(
    text: &mut Text,
    names: &[ThreadName],
    answer: Answer,
) -> Result<(), NoMemory>
    ensures added { OnOk result (text.new.begun ≡ text.old.begun ++ answer_text (names_of names.now) answer) }
    ensures kept { text.new.whole ≡ text.old.whole }
{
    match answer {
        Answer::Got {
            place,
            usable,
            grant,
        } => {
            text.word(b"got ")?;
            add_object(text, names, place, usable, grant)
        }
        Answer::Null(cause) => add_null(text, cause),
        Answer::Freed => text.word(b"freed"),
        Answer::False => text.word(b"false"),
        Answer::Size(size) => text.worded(b"size ", size),
        Answer::Pool(pool) => text.worded(b"pool P", u64::from(pool)),
        Answer::NoPool => text.word(b"no-pool"),
        Answer::NotHeld(found) => add_not_held(text, names, found),
        Answer::Exited => text.word(b"exited"),
    }
}
