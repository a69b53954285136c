//! What is due goes to a sink. This project's own.
ghost use Rattle.std.specs.Prelude.{◌≡◌, ◌<◌, length, OnOk, OnErr};
ghost use Rattle.std.specs.Io.KnownBytes.{Appends};
ghost use Rattle.pool_types.specs.Causes.{Rose};
ghost use Rattle.pool_types.specs.Transfers.{IsWrittenPart};
ghost use Rattle.program_edge.specs.Outcome.{output_text};

use crate::outcome::Output;
use pool_types::{Failed, Sink, write_all};
use report_text::write_report;

/// Writes what is to be written. It fails only where the sink's count of faults rose; then a front of it was taken.
pub fn write_output<K: Sink>(sink: &mut K, output: &Output) -> Result<(), Failed>
    ensures whole { OnOk result (Appends (K.taken sink.old) (K.taken sink.new) (output_text output.now)) }
    ensures part { IsWrittenPart (K.taken sink.old) (K.taken sink.new) (output_text output.now) }
    ensures fault { OnErr result (Rose (K.faults sink.old) (K.faults sink.new)) }
    ensures some { OnErr result (0 < length (output_text output.now)) }
    ensures kept { OnOk result (K.faults sink.new ≡ K.faults sink.old) }
{
    match output {
        Output::Words(text) => write_all(sink, text.as_slice()),
        Output::Whole(report) => write_report(sink, report),
    }
}
