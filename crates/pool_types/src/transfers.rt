//! All that a source has, and a whole text to a sink. This project's own.
ghost use Rattle.std.specs.Prelude.{◌≡◌, ◌≢◌, ◌+◌, ◌<◌, length, IfOk, IsErrOf, OnOk, OnErr};
ghost use Rattle.std.specs.Io.KnownBytes.{Appends};
ghost use Rattle.pool_types.specs.Causes.{Rose};
ghost use Rattle.pool_types.specs.Limits.{most_trace_bytes};
ghost use Rattle.pool_types.specs.Transfers.{IsReadPast, IsReadWhole, IsWrittenPart};

use crate::limits::MOST_TRACE_BYTES;
use crate::outside::{Failed, Sink, Source};
use std::alloc::Global;

/// How many bytes are asked of a source at a time.
const PIECE_BYTES: usize = 8192;

/// Why a source was not read to its end.
#[derive(Clone, Copy, Debug, PartialEq, Eq)]
pub enum ReadError {
    /// A read failed.
    Fault,
    /// One byte more than a trace may have was taken.
    TooLong,
    NoMemory,
}

/// Reads to the end of the source. It takes at most one byte more than a trace may have, and reads on after no fault.
pub fn read_all<S: Source>(alloc: Global, source: &mut S) -> Result<Vec<u8>, ReadError>
    ensures whole { IfOk result (λ bytes. IsReadWhole (S.left source.old) (S.left source.new) bytes.items) }
    ensures long { IsErrOf result ReadError.TooLong →
        IsReadPast (S.left source.old) (S.left source.new) (most_trace_bytes + 1) }
    ensures fault { IsErrOf result ReadError.Fault → Rose (S.faults source.old) (S.faults source.new) }
    ensures kept { result ≢ Err ReadError.Fault → S.faults source.new ≡ S.faults source.old }
{
    let mut bytes = Vec::new(alloc);
    let mut buf = [0u8; PIECE_BYTES];
    while bytes.len() <= MOST_TRACE_BYTES {
        let room = (MOST_TRACE_BYTES + 1 - bytes.len()).min(PIECE_BYTES);
        let part = &mut buf[..room];
        match source.read(part) {
            Ok(0) => {
                return Ok(bytes);
            }
            Ok(count) => {
                let got = &part[..count];
                if bytes.extend_from_slice(got).is_err() {
                    return Err(ReadError::NoMemory);
                }
            }
            Err(_) => {
                return Err(ReadError::Fault);
            }
        }
    }
    Err(ReadError::TooLong)
}

/// Writes the whole text. It writes on after no fault: where a write fails, which comes only where the sink's count of
/// faults rose, the front of the text is written.
pub fn write_all<K: Sink>(sink: &mut K, text: &[u8]) -> Result<(), Failed>
    ensures whole { OnOk result (Appends (K.taken sink.old) (K.taken sink.new) text.now) }
    ensures part { IsWrittenPart (K.taken sink.old) (K.taken sink.new) text.now }
    ensures fault { OnErr result (Rose (K.faults sink.old) (K.faults sink.new)) }
    ensures some { OnErr result (0 < length text.now) }
    ensures kept { OnOk result (K.faults sink.new ≡ K.faults sink.old) }
{
    let mut at = 0;
    while at < text.len() {
        match sink.write(&text[at..]) {
            Ok(count) => {
                at += count;
            }
            Err(error) => {
                return Err(error);
            }
        }
    }
    Ok(())
}
