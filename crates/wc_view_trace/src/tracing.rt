ghost use Rattle.std.specs.Prelude.{◌≡◌, true, false};
ghost use Rattle.wc_controller.specs.{RunsUnsaid, EndsSaying};
ghost use Rattle.wc_record.specs.Reported.{fields_reported};
ghost use Rattle.wc_view_trace.specs.Traces.{IsChosen, HasTraced, tracing};

use crate::tracer::Tracer;
use std::alloc::Global;
use wc_controller::{Ending, RefusedRow, RunInputs, run_files};
use wc_model::{ByteIn, ByteOut};

/// How the scans of a run are written.
#[derive(Clone, Copy)]
pub enum TraceFormat {
    /// For people: a heading, a row for each item in columns, and the steps.
    Text,
    /// For programs: a JSON object on a line of its own for each scan.
    Json,
}

/// Which scans of a run are shown: those that meet each condition that is given, and all if none is.
#[derive(Clone, Copy)]
pub struct ScanFilter {
    /// The moment of the scan in milliseconds.
    pub at: Option<u64>,
    /// The number of the scan among those of the run, counted from 1.
    pub scan: Option<u64>,
    /// The first moment in milliseconds.
    pub from: Option<u64>,
    /// The last moment in milliseconds.
    pub to: Option<u64>,
}

impl ScanFilter {
    /// Whether the scan of that number and moment is shown.
    pub fn has(&self, number: u32, ms: u64) -> bool
        ensures chosen { result ≡ true → IsChosen self.now number ms }
        ensures others { result ≡ false → ¬ IsChosen self.now number ms }
    {
        let number = u64::from(number);
        self.at.is_none_or(|at| ms == at)
            && self.scan.is_none_or(|scan| number == scan)
            && self.from.is_none_or(|from| from <= ms)
            && self.to.is_none_or(|to| ms <= to)
    }
}

/// Runs a log as `run_files` does, and in place of its report writes the items of the scans that are chosen, in the format asked
/// for: rows for people, or a JSON object for each scan. If the run ends well and no scan was chosen, the text says so; the
/// last object has the number of scans in any case. A refusal is reported as there, after the scans before it. A write fault and out
/// of memory end the run, as they end that of a report, and nothing is said of what was written before them.
pub fn trace_files<P: ByteIn, T: ByteIn, N: ByteIn, L: ByteIn, W: ByteOut>(
    alloc: Global,
    chosen: ScanFilter,
    format: TraceFormat,
    inputs: &mut RunInputs<P, T, N, L>,
    writer: &mut W,
    reported: &mut RefusedRow,
) -> Ending
    ensures runs { RunsUnsaid inputs.old inputs.new (fields_reported reported.new) result
        (W.failure_count writer.old) (W.failure_count writer.new) }
    // If the log came to its end, or to a refused row, what is written is the trace of its rows.
    ensures traces { EndsSaying (HasTraced (tracing chosen format)) inputs.old result
        (W.bytes_taken writer.old) (W.bytes_taken writer.new) }
{
    let mut tracer = Tracer::new(alloc, chosen, format);
    run_files(alloc, &mut tracer, inputs, writer, reported)
}
