//! The text of a summary, which is one line. This project's own.
ghost use Rattle.std.specs.Prelude.{◌≡◌, ◌++◌, IfOk, OnOk};
ghost use Rattle.poolreplay.specs.Summaries.{calls_text, held_text, summary_text};

use std::alloc::Global;
use std::io::{self, Write};
use trace_runs::Summary;

/// Adds what the calls of a run came to.
fn add_calls(text: &mut Vec<u8>, summary: Summary) -> io::Result<()>
    ensures { OnOk result (text.new.items ≡ text.old.items ++ calls_text summary) }
{
    let Summary {
        calls,
        got,
        null,
        freed,
        ..
    } = summary;
    write!(
        text,
        "gen calls {calls} got {got} null {null} freed {freed}"
    )
}

/// Adds what is held at the end.
fn add_held(text: &mut Vec<u8>, summary: Summary) -> io::Result<()>
    ensures { OnOk result (text.new.items ≡ text.old.items ++ held_text summary) }
{
    let Summary { leaks, bytes, .. } = summary;
    writeln!(text, " leaks {leaks} bytes {bytes}")
}

/// The text of a summary.
#[tactic(auto, unfolding(crate::specs::Summaries::summary_text))]
pub fn summary_text(alloc: Global, summary: Summary) -> io::Result<Vec<u8>>
    ensures { IfOk result (λ text. text.items ≡ summary_text summary) }
{
    let mut text = Vec::new(alloc);
    add_calls(&mut text, summary)?;
    add_held(&mut text, summary)?;
    Ok(text)
}
