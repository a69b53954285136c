//! What the user is told beside the exact text: one line on standard error. This project's own.

use crate::outcome::Status;
use refusals::tell_refusal;
use std::alloc::{AllocError, Global};

/// What is said of a status, by a program that is called so, where this was read of the trace. Nothing is said of
/// `Done`.
pub fn message<'a>(
    alloc: Global,
    usage: &'a str,
    status: Status,
    trace: &[u8],
) -> Result<Option<String>, AllocError> {
    let text = match status {
        Status::Done => return Ok(None),
        Status::BadTrace { line, kind } => {
            return Ok(Some(tell_refusal(alloc, trace, line, kind)?));
        }
        Status::StepsOut { line } => {
            return Ok(Some(format!(in alloc;
                "line {line}: it made 65536 * (span + 64) turns, and none ended it"
            )?));
        }
        Status::BadWords => usage,
        Status::TooLong => "a trace has at most 4194304 bytes",
        Status::ReadFault => "standard input could not be read",
        Status::WriteFault => "a write failed",
        Status::NoMemory => "memory ran out",
    };
    Ok(Some(String::from_str(alloc, text)?))
}
