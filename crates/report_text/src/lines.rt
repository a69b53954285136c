//! The text of an entry.
ghost use Rattle.std.specs.Prelude.{◌≡◌, ◌++◌, OnOk, codes};
ghost use Rattle.std.specs.Fmt.{decimal};
ghost use Rattle.pool_types.specs.Texts.{names_of};
ghost use Rattle.report_text.specs.Pieces.{name_of};
ghost use Rattle.report_text.specs.Answers.{answer_text};
ghost use Rattle.report_text.specs.Entries.{limits_text, waits_text, fate_text, line_text, destroyed_text, region_text, region_left_text, entry_text};

use crate::answers::add_answer;
use crate::entry::{Fate, ReportEntry};
use crate::moves::{add_keeper_move, add_move};
use crate::pieces::add_name;
use crate::report::NoMemory;
use crate::text::Text;
use crate::totals::{add_cache, add_leak, add_total};
use pool_types::{Answer, Awaited, RegionRec, ThreadName, Which};

/// The limit that is out of its range.
fn limits_text(limit: Which) -> &'static [u8]
    ensures { result.now ≡ limits_text limit }
{
    match limit {
        Which::Seats => b"bad-limits seats",
        Which::Region => b"bad-limits region",
        Which::Granularity => b"bad-limits granularity",
        Which::Span => b"bad-limits span",
    }
}

/// What the last turn waits for.
fn waits_text(awaited: Awaited) -> &'static [u8]
    ensures { result.now ≡ waits_text awaited }
{
    match awaited {
        Awaited::BinLock(_) | Awaited::CacheLock(_) => b"waits lock",
        Awaited::Office => b"waits office",
        Awaited::Mail(_) => b"waits mail",
        Awaited::Half(_) => b"waits half",
    }
}

/// What became of a region.
fn fate_text(fate: Fate) -> &'static [u8]
    ensures { result.now ≡ fate_text fate }
{
    match fate {
        Fate::Returned => b"returned",
        Fate::Refused => b"refused",
        Fate::Kept => b"kept",
    }
}

/// Adds the line's number and a space.
fn add_line_number(text: &mut Text, line: u32) -> Result<(), NoMemory>
    ensures added { OnOk result (text.new.begun ≡ text.old.begun ++ (decimal line ++ codes " ")) }
    ensures kept { text.new.whole ≡ text.old.whole }
{
    text.number(u64::from(line))?;
    text.word(b" ")
}

/// Adds the line's number, and these words.
fn add_line(text: &mut Text, line: u32, words: &[u8]) -> Result<(), NoMemory>
    ensures added { OnOk result (text.new.begun ≡ text.old.begun ++ line_text line words.now) }
    ensures kept { text.new.whole ≡ text.old.whole }
{
    add_line_number(text, line)?;
    text.word(words)?;
    text.word(b"\n")
}

/// Adds that the last call of this seat's thread is not done.
fn add_call_open(text: &mut Text, names: &[ThreadName], line: u32, seat: u8) -> Result<(), NoMemory>
    ensures added { OnOk result (text.new.begun ≡ text.old.begun ++ line_text line (codes "call-open " ++ name_of (names_of names.now) seat)) }
    ensures kept { text.new.whole ≡ text.old.whole }
{
    add_line_number(text, line)?;
    text.word(b"call-open ")?;
    add_name(text, names, seat)?;
    text.word(b"\n")
}

/// Adds the answer that a line came to.
fn add_answer_line(
    text: &mut Text,
    names: &[ThreadName],
    line: u32,
    answer: Answer,
) -> Result<(), NoMemory>
    ensures added { OnOk result (text.new.begun ≡ text.old.begun ++ line_text line (answer_text (names_of names.now) answer)) }
    ensures kept { text.new.whole ≡ text.old.whole }
{
    add_line_number(text, line)?;
    add_answer(text, names, answer)?;
    text.word(b"\n")
}

/// Adds how many regions had each fate, and how many objects were held.
#[tactic(auto, unfolding(crate::specs::Entries::destroyed_text))]
fn add_destroyed(
    text: &mut Text,
    returned: u64,
    refused: u64,
    kept: u64,
    objects: u64,
) -> Result<(), NoMemory>
    ensures added { OnOk result (text.new.begun ≡ text.old.begun ++ destroyed_text returned refused kept objects) }
    ensures kept { text.new.whole ≡ text.old.whole }
{
    text.worded(b"destroyed returned ", returned)?;
    text.worded(b" refused ", refused)?;
    text.worded(b" kept ", kept)?;
    text.worded(b" objects ", objects)
}

/// Adds the line of a pool that was destroyed.
fn add_destroyed_line(
    text: &mut Text,
    line: u32,
    returned: u64,
    refused: u64,
    kept: u64,
    objects: u64,
) -> Result<(), NoMemory>
    ensures added { OnOk result (text.new.begun ≡ text.old.begun ++ line_text line (destroyed_text returned refused kept objects)) }
    ensures kept { text.new.whole ≡ text.old.whole }
{
    add_line_number(text, line)?;
    add_destroyed(text, returned, refused, kept, objects)?;
    text.word(b"\n")
}

/// Adds a region's number, its base and its bytes.
#[tactic(auto, unfolding(crate::specs::Entries::region_text))]
fn add_region(text: &mut Text, pool: u16, rec: RegionRec) -> Result<(), NoMemory>
    ensures added { OnOk result (text.new.begun ≡ text.old.begun ++ region_text pool rec) }
    ensures kept { text.new.whole ≡ text.old.whole }
{
    text.worded(b"region P", u64::from(pool))?;
    text.worded(b".R", u64::from(rec.number))?;
    text.worded(b" ", rec.region.base)?;
    text.worded(b" ", rec.region.bytes)
}

/// Adds the line of a region of a pool that was destroyed.
#[tactic(auto, unfolding(crate::specs::Entries::region_left_text))]
fn add_region_line(text: &mut Text, pool: u16, rec: RegionRec, fate: Fate) -> Result<(), NoMemory>
    ensures added { OnOk result (text.new.begun ≡ text.old.begun ++ region_left_text pool rec fate) }
    ensures kept { text.new.whole ≡ text.old.whole }
{
    add_region(text, pool, rec)?;
    text.word(b" ")?;
    text.word(fate_text(fate))?;
    text.word(b"\n")
}

/// Adds the text of an entry.
pub(crate) fn add_entry(
    text: &mut Text,
    names: &[ThreadName],
    entry: ReportEntry,
) -> Result<(), NoMemory>
    ensures added { OnOk result (text.new.begun ≡ text.old.begun ++ entry_text (names_of names.now) entry) }
    ensures kept { text.new.whole ≡ text.old.whole }
{
    match entry {
        ReportEntry::Made { line } => add_line(text, line, b"made"),
        ReportEntry::InvalidPolicy { line } => add_line(text, line, b"invalid-policy"),
        ReportEntry::UnsupportedPolicy { line } => add_line(text, line, b"unsupported-policy"),
        ReportEntry::BadLimits { line, limit } => add_line(text, line, limits_text(limit)),
        ReportEntry::Begun { line } => add_line(text, line, b"begun"),
        ReportEntry::Stepped { line } => add_line(text, line, b"stepped"),
        ReportEntry::Waits { line, awaited } => add_line(text, line, waits_text(awaited)),
        ReportEntry::Idle { line } => add_line(text, line, b"idle"),
        ReportEntry::CallOpen { line } => add_line(text, line, b"call-open"),
        ReportEntry::CallOpenOf { line, seat } => add_call_open(text, names, line, seat),
        ReportEntry::Gone { line } => add_line(text, line, b"gone"),
        ReportEntry::Reset { line } => add_line(text, line, b"reset"),
        ReportEntry::Destroyed {
            line,
            returned,
            refused,
            kept,
            objects,
        } => add_destroyed_line(text, line, returned, refused, kept, objects),
        ReportEntry::Answered { line, answer } => add_answer_line(text, names, line, answer),
        ReportEntry::RegionLeft { pool, region, fate } => add_region_line(text, pool, region, fate),
        ReportEntry::Moved {
            number,
            seat,
            row,
            part,
        } => add_move(text, names, number, seat, row, part),
        ReportEntry::KeeperMoved {
            number,
            seat,
            row,
            change,
        } => add_keeper_move(text, names, number, seat, row, change),
        ReportEntry::Total { pool, totals } => add_total(text, pool, totals),
        ReportEntry::CacheBin { pool, bin } => add_cache(text, pool, bin),
        ReportEntry::Leaked { leak } => add_leak(text, names, leak),
    }
}
