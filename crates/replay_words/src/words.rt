//! The words of a command line.
ghost use Rattle.std.specs.Prelude.{◌≡◌, ◌≢◌, IfOk, Some, true, false, map, string_bytes, codes, slice_get, option_map};
ghost use Rattle.clap.specs.Faults.{is_simple_and_free};
ghost use Rattle.clap.specs.Simple.{app_of};
ghost use Rattle.clap.specs.Values.{kind_of};
ghost use Rattle.clap.specs.Walk.{first_of, rows_of};
ghost use Rattle.clap.specs.Words.{found_of};
ghost use Rattle.clap.specs.declared.error.kind.ErrorKind.TheVariants as ErrorKind;
ghost use Rattle.replay_words.specs.Apps.{gen_app, replay_app};
ghost use Rattle.replay_words.specs.Commands.{Accepts, AreInRange, GivesNumber, HasMoves, IsNamed, ReadsCommand, ReadsNumbers};

use crate::command::Command;
use clap::error::ErrorKind;
use clap::{Arg, ArgAction, ArgMatches, Error};
use pool_types::limits::MOST_THREADS;
use std::alloc::{AllocError, Global};
use trace_reader::read_number;

/// A generated trace has at most so many calls.
const MOST_CALLS: u64 = 20000;

/// Whether an error is no want of memory.
fn is_refusal(error: &Error) -> bool
    ensures { result ≡ true → kind_of error.now ≢ ErrorKind.OutOfMemory }
{
    !matches!(error.kind(), ErrorKind::OutOfMemory)
}

/// What `clap` makes of the words, where the command accepts them.
fn matches_of<'a>(
    command: clap::Command<'a>,
    words: &'a [String],
) -> Result<Option<ArgMatches<'a>>, AllocError>
    requires { is_simple_and_free (app_of command) ≡ true }
    ensures { IfOk result (Accepts (app_of command.entry) (map string_bytes words.entry.now)) }
{
    match command.try_get_matches_from(words) {
        Ok(matches) => Ok(Some(matches)),
        Err(error) => {
            if is_refusal(&error) {
                Ok(None)
            } else {
                Err(AllocError)
            }
        }
    }
}

/// The command `replay`. Help and version are no words of it.
fn replay_app<'a>(alloc: Global) -> Result<clap::Command<'a>, AllocError>
    ensures { IfOk result (λ command. app_of command ≡ replay_app) }
{
    let moves = Arg::new(alloc, "moves")
        .long("moves")
        .action(ArgAction::SetTrue);
    clap::Command::new(alloc, "replay")
        .disable_help_flag(true)
        .disable_version_flag(true)
        .arg(moves)
}

/// The command `gen`. Help and version are no words of it.
fn gen_app<'a>(alloc: Global) -> Result<clap::Command<'a>, AllocError>
    ensures { IfOk result (λ command. app_of command ≡ gen_app) }
{
    let seed = Arg::new(alloc, "seed").required(true);
    let threads = Arg::new(alloc, "threads").required(true);
    let calls = Arg::new(alloc, "calls").required(true);
    clap::Command::new(alloc, "gen")
        .disable_help_flag(true)
        .disable_version_flag(true)
        .arg(seed)?
        .arg(threads)?
        .arg(calls)
}

/// The text of this name that the words give.
fn text_of<'a>(matches: &ArgMatches<'a>, id: &str) -> Option<&'a str>
    ensures { option_map (λ s. s.now) result ≡ first_of id.now (rows_of (found_of matches.now)) }
{
    matches.get_str(id)
}

/// Whether a flag's text says that it is given.
fn is_true(text: &str) -> bool
    ensures yes { result ≡ true → text.now ≡ codes "true" }
    ensures no { result ≡ false → text.now ≢ codes "true" }
{
    text == "true"
}

/// Whether the words give the flag.
fn has_moves(matches: &ArgMatches<'_>) -> bool
    ensures { HasMoves (rows_of (found_of matches.now)) result }
{
    match text_of(matches, "moves") {
        Some(text) => is_true(text),
        None => false,
    }
}

/// The number that the text of this name spells.
fn number_of(matches: &ArgMatches<'_>, id: &str) -> Option<u64>
    ensures { GivesNumber id.now (rows_of (found_of matches.now)) result }
{
    match text_of(matches, id) {
        Some(text) => read_number(text.as_bytes()),
        None => None,
    }
}

/// Whether a generated trace may have so many threads and calls.
fn are_in_range(threads: u64, calls: u64) -> bool
    ensures yes { result ≡ true → AreInRange threads calls }
    ensures no { result ≡ false → AreInRange threads calls → ⊥ }
{
    1 <= threads && threads <= MOST_THREADS as u64 && calls <= MOST_CALLS
}

/// The generated trace that the texts ask for.
fn gen_by(matches: &ArgMatches<'_>) -> Option<Command>
    ensures { ReadsNumbers (rows_of (found_of matches.now)) result }
{
    let seed = number_of(matches, "seed")?;
    let threads = number_of(matches, "threads")?;
    let calls = number_of(matches, "calls")?;
    if are_in_range(threads, calls) {
        Some(Command::Gen {
            seed,
            threads: threads as u8,
            calls: calls as u32,
        })
    } else {
        None
    }
}

/// The replay that the words ask for.
fn read_replay(alloc: Global, words: &[String]) -> Result<Option<Command>, AllocError>
    requires { slice_get (map string_bytes words.now) 0 ≡ Some (codes "replay") }
    ensures { IfOk result (ReadsCommand (map string_bytes words.now)) }
{
    match matches_of(replay_app(alloc)?, words)? {
        Some(matches) => {
            let moves = has_moves(&matches);
            Ok(Some(Command::Replay { moves }))
        }
        None => Ok(None),
    }
}

/// The generated trace that the words ask for.
fn read_gen(alloc: Global, words: &[String]) -> Result<Option<Command>, AllocError>
    requires { slice_get (map string_bytes words.now) 0 ≡ Some (codes "gen") }
    ensures { IfOk result (ReadsCommand (map string_bytes words.now)) }
{
    match matches_of(gen_app(alloc)?, words)? {
        Some(matches) => Ok(gen_by(&matches)),
        None => Ok(None),
    }
}

/// Which command the first word names.
#[derive(Clone, Copy)]
enum Name {
    Replay,
    Gen,
    Other,
}

/// The command that the first word names.
fn name_in(words: &[String]) -> Name
    ensures { IsNamed (map string_bytes words.now) result }
{
    match words.first() {
        Some(word) => match word.as_str() {
            "replay" => Name::Replay,
            "gen" => Name::Gen,
            _ => Name::Other,
        },
        None => Name::Other,
    }
}

/// The command that the words ask for; the first of them is the word behind the program's name. None where they ask for
/// none. Want of memory is the one error.
pub fn read_command(alloc: Global, words: &[String]) -> Result<Option<Command>, AllocError>
    ensures { IfOk result (ReadsCommand (map string_bytes words.now)) }
{
    match name_in(words) {
        Name::Replay => read_replay(alloc, words),
        Name::Gen => read_gen(alloc, words),
        Name::Other => Ok(None),
    }
}
