ghost use Rattle.wc_controller.specs.{RunsAs, writer_of};
ghost use Rattle.std.specs.Prelude.{ℕ, ◌<◌, List};
ghost use Rattle.wc_cut.specs.CutAgain.{IsCutAgain, GoesOnFromTheCut, IsReadBack, IsLogAgain};
ghost use Rattle.wc_cut.specs.Cuts.{cut_observed};
ghost use Rattle.wc_cut.specs.TooMany.{IsReported, ReportsTooMany, ending_reported};
ghost use Rattle.wc_model.specs.Definitions.{IsPlate, PlateData, LogRow};
ghost use Rattle.wc_record.specs.Reported.{fields_reported};

use crate::cutter::Cutter;
use std::alloc::Global;
use wc_controller::{Ending, RefusedRow, RunInputs, run_files};
use wc_model::{ByteIn, ByteOut};

/// The log that was written has more rows than a log may have, so that it will be refused.
#[derive(Clone, Copy)]
pub struct TooManyRows;

/// The ending of a cut; the error if it is done, and no capacity is left.
fn ending_or_too_many(ending: Ending, capacity: u64) -> Result<Ending, TooManyRows>
    ensures { IsReported ending capacity result }
{
    if capacity == 0 && ending == Ending::Done {
        return Err(TooManyRows);
    }
    Ok(ending)
}

/// Runs a log as `run_files` does, and in place of its report writes the log that goes on after
/// `count` rows, the heading not counted: the heading, the prelude of those rows, at the time of
/// the last of them, and the other rows. If the log has no more rows than that, it is the heading
/// and the prelude of all. Each row is written before the next one is read.
///
/// A row that is refused ends what is written; if it comes before the first row after the cut, the
/// line of its refusal is all that is written. A write fault and out of memory end the run, as they
/// end that of a report.
///
/// A prelude can have more rows than it replaces. If what is written has more rows than a log may
/// have, the error is `TooManyRows`, once all is written.
pub fn cut_files<P: ByteIn, T: ByteIn, N: ByteIn, L: ByteIn, W: ByteOut>(
    alloc: Global,
    count: u64,
    inputs: &mut RunInputs<P, T, N, L>,
    writer: &mut W,
    reported: &mut RefusedRow,
) -> Result<Ending, TooManyRows>
    ensures runs { RunsAs (cut_observed count) inputs.old inputs.new
        (fields_reported reported.new) (ending_reported result)
        (writer_of W.bytes_taken W.failure_count writer.old)
        (writer_of W.bytes_taken W.failure_count writer.new) }
    // A log that is cut and cut again is, byte for byte, the log that is cut once.
    ensures again { (plate : PlateData) → 0 < plate.window → (first more : ℕ)
        (rows : List LogRow) → IsCutAgain plate first more rows }
    // `csv` reads of what is written the fields of its rows.
    ensures read { (plate : PlateData) → 0 < plate.window → (first : ℕ) (rows : List LogRow)
        → IsReadBack plate first rows }
    // If they are too many it is reported, and only then.
    ensures too_many { ReportsTooMany count inputs.old (W.bytes_taken writer.old) result }
    // So what is written is a log of these rows, unless they are too many.
    ensures log { (plate : PlateData) → IsPlate plate → (first : ℕ) (rows : List LogRow)
        → IsLogAgain plate first rows }
{
    let mut cutter = Cutter::new(alloc, count);
    let ending = run_files(alloc, &mut cutter, inputs, writer, reported);
    ending_or_too_many(ending, cutter.capacity)
}

/// A log that is cut is the text of rows, and these go on as the rows of the whole log do: each
/// answer after the cut, each reading and each image is the same.
pub fn cut_logs_go_on()
    ensures { (plate : PlateData) → 0 < plate.window → (count : ℕ) (rows : List LogRow)
        → GoesOnFromTheCut plate count rows }
{}
