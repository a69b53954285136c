//! Words that are commands, and words that are none.

use crate::{Command, read_command};
use std::alloc::Global;
use std::test::Fail;

/// What these words are read as, where single spaces part them.
fn read(alloc: Global, line: &str) -> Result<Option<Command>, Fail> {
    let mut words = Vec::new(alloc);
    for word in line.split(' ') {
        words.push(String::from_str(alloc, word)?)?;
    }
    Ok(read_command(alloc, words.as_slice())?)
}

/// Whether each of these lines is no command.
fn are_refused(alloc: Global, lines: &[&str]) -> Result<bool, Fail> {
    for line in lines {
        if read(alloc, line)?.is_some() {
            return Ok(false);
        }
    }
    Ok(true)
}

#[test]
fn words_of_a_replay(rt: HostRuntime) -> Result<(), Fail> {
    let alloc = rt.alloc();
    let bare = Some(Command::Replay { moves: false });
    let moves = Some(Command::Replay { moves: true });
    assert_eq!(rt; read(alloc, "replay")?, bare);
    assert_eq!(rt; read(alloc, "replay --")?, bare);
    assert_eq!(rt; read(alloc, "replay --moves")?, moves);
    assert_eq!(rt; read(alloc, "replay --moves --")?, moves);
    Ok(())
}

#[test]
fn words_of_a_generated_trace(rt: HostRuntime) -> Result<(), Fail> {
    let alloc = rt.alloc();
    let most = Command::Gen {
        seed: u64::MAX,
        threads: 64,
        calls: 20000,
    };
    assert_eq!(rt;
        read(alloc, "gen 18446744073709551615 64 20000")?,
        Some(most)
    );
    assert_eq!(rt;
        read(alloc, "gen 18446744073709551615 -- 64 20000")?,
        Some(most)
    );
    Ok(())
}

#[test]
fn words_that_are_no_command(rt: HostRuntime) -> Result<(), Fail> {
    let lines = [
        "",
        "--help",
        "help",
        "Replay",
        "replay now",
        "replay --moves now",
        "replay --moves --moves",
        "replay --moves=1",
        "replay -- --moves",
        "replay --help",
        "replay -V",
        "gen",
        "gen 1 1",
        "gen 1 1 0 0",
        "gen 01 1 0",
        "gen +1 1 0",
        "gen -1 1 0",
        "gen 1 0 0",
        "gen 1 65 0",
        "gen 1 1 20001",
        "gen 18446744073709551616 1 0",
        "gen 1 1 0 --moves",
    ];
    assert!(rt; are_refused(rt.alloc(), lines.as_slice())?);
    Ok(())
}
