ghost use Rattle.std.specs.Prelude.{◌≡◌, ◌≤◌, false};
ghost use Rattle.wc_controller.specs.Endings.{EndsAs, IsAt, StopsAt};
ghost use Rattle.wc_controller.specs.Files.{report_observed};
ghost use Rattle.wc_controller.specs.Frames.{AnswersInFrames, AnswersAreShort};
ghost use Rattle.wc_controller.specs.HeadlineRuns.{OfRunsByTheHeadline};
ghost use Rattle.wc_controller.specs.InputRuns.{RunsAs, RunsUpTo};
ghost use Rattle.wc_controller.specs.TakenLogs.{observed_by, writer_of, OfPrograms};
ghost use Rattle.wc_controller.specs.WrittenRuns.{EndsSaying, IsUnwritten, OfRun, OnEnd, says_of};
ghost use Rattle.wc_model.specs.Instrument.Plates.{IsPlate, PlateData};
ghost use Rattle.wc_record.specs.Reported.{fields_reported};
ghost use Rattle.wc_run.specs.Observing.{said_by};

use crate::ending::{Ending, InputFault, end};
use crate::loaded::{RunPrograms, load_input, run_alone, run_loaded};
use crate::reading::{read_optional, read_plate, text_slice};
use std::alloc::Global;
use std::marker::Model;
use wc_job::Input;
use wc_model::{ByteIn, ByteOut};
use wc_record::RefusedRow;
use wc_run::{LastScans, Observer, Report};
use wc_store::SlotStore;

/// The inputs of a run, each with its reader. They are read in this order, and what follows an input
/// that is refused is not read.
#[derive(Drop)]
pub struct RunInputs<P: ByteIn, T: ByteIn, N: ByteIn, L: ByteIn> {
    /// The text of the plate, at most 1048576 bytes.
    pub plate: P,
    /// The text of the program, at most 1048576 bytes. With `None` no program runs, and only the
    /// answers of the line are written.
    pub program: Option<T>,
    /// The text of the next program, at most 1048576 bytes, to which a row of the log changes. With
    /// `None` a row that changes the program is refused. It is not read if there is no program.
    pub next: Option<N>,
    /// The rows of the log. They are read one by one, 134217728 bytes and calls at most.
    pub log: L,
}

impl<P: ByteIn, T: ByteIn, N: ByteIn, L: ByteIn> Model for RunInputs<P, T, N, L> {
    ghost use Rattle.wc_controller.specs.TakenLogs.{InputStates, inputs_of, optional_of, reader_of};

    ghost Value = { InputStates };

    ghost view = { λ inputs.
        inputs_of (reader_of P.bytes_left P.failure_count P.spent_count inputs.plate)
        (optional_of T.bytes_left T.failure_count T.spent_count inputs.program)
        (optional_of N.bytes_left N.failure_count N.spent_count inputs.next)
        (reader_of L.bytes_left L.failure_count L.spent_count inputs.log) };
}

/// Reads a plate, and a program and the next one, if there are such, and runs a log, as `run_files` does, but does not write the
/// line of a refusal: what is refused, and at which input, is in the result alone.
pub fn run_inputs<
    P: ByteIn,
    T: ByteIn,
    N: ByteIn,
    L: ByteIn,
    W: ByteOut,
    O: Observer<SlotStore, W>,
>(
    alloc: Global,
    observer: &mut O,
    inputs: &mut RunInputs<P, T, N, L>,
    writer: &mut W,
    reported: &mut RefusedRow,
) -> Result<(), InputFault>
    requires new { O.is_new observer.old }
    ensures refused { StopsAt Input.Names result → OfPrograms inputs.old.program inputs.old.next
        (λ logic. (O.begins observer.old logic ≡ false)
        × O.has_refused observer.old observer.new logic) }
    ensures ended { OnEnd result (OfRun inputs.old (W.bytes_taken writer.old)
        (says_of (O.has_ended observer.new (O.settings observer.old))
        (W.bytes_taken writer.new))) }
    // If an input before the log stops it, or names that are not known, nothing is written.
    ensures unwritten { IsUnwritten result (W.bytes_taken writer.old)
        (W.bytes_taken writer.new) }
    ensures runs { RunsUpTo (observed_by O.plan O.begins observer.old) inputs.old inputs.new
        (fields_reported reported.new) result
        (writer_of (said_by O.speaks W.bytes_taken) W.failure_count writer.old)
        (writer_of (said_by O.speaks W.bytes_taken) W.failure_count writer.new) }
{
    let plate = read_plate(alloc, &mut inputs.plate)?;
    let read = read_optional(alloc, Input::Program, &mut inputs.program)?;
    let text = match read {
        Some(text) => text,
        None => return run_alone(alloc, observer, &plate, &mut inputs.log, writer, reported),
    };
    let loaded = load_input(alloc, Input::Program, &text)?;
    let other = read_optional(alloc, Input::Next, &mut inputs.next)?;
    let programs = RunPrograms {
        plate,
        text: &text,
        loaded,
        next: text_slice(&other),
    };
    run_loaded(alloc, observer, programs, &mut inputs.log, writer, reported)
}

/// Runs a log, whoever observes it. The plate is read and checked first, then the program, then the
/// next program, if there are such; the observer is shown the programs, and may refuse to begin;
/// then the log is run row by row, and what the observer writes of a row is written before the next
/// row is read. With no program the line alone does anything.
///
/// `reported` is given the fields of a row that is refused.
///
/// The first input that breaks a rule is refused, after what is written of the rows before, and what
/// follows it is not read. A row that changes the program takes the next one; if none is left it
/// is refused. A read fault names the input whose reader failed in this call, or the log if as much
/// was read as may be; a write fault comes if the observer's writer failed in this call, and only
/// then. After such a fault, and out of memory, a prefix of the output was written, or nothing.
pub fn run_files<P: ByteIn, T: ByteIn, N: ByteIn, L: ByteIn, W: ByteOut, O: Observer<SlotStore, W>>(
    alloc: Global,
    observer: &mut O,
    inputs: &mut RunInputs<P, T, N, L>,
    writer: &mut W,
    reported: &mut RefusedRow,
) -> Ending
    requires new { O.is_new observer.old }
    // The names are refused only of programs with which the observer does not begin.
    ensures refused { IsAt Input.Names result → OfPrograms inputs.old.program inputs.old.next
        (λ logic. (O.begins observer.old logic ≡ false)
        × O.has_refused observer.old observer.new logic) }
    // What the observer says of the bytes of a run that came to its end, or to a refused row; if
    // another input is refused, the line that says so is all.
    ensures ended { EndsSaying (O.has_ended observer.new (O.settings observer.old)) inputs.old
        result (W.bytes_taken writer.old) (W.bytes_taken writer.new) }
    // The text that is loaded has the headline, and what is written belongs to the rows of which it speaks.
    ensures headline { OfRunsByTheHeadline (observed_by O.plan O.begins observer.old) inputs.old
        (λ allowed. EndsAs allowed result (said_by O.speaks W.bytes_taken writer.old)
        (said_by O.speaks W.bytes_taken writer.new)) }
    ensures runs { RunsAs (observed_by O.plan O.begins observer.old) inputs.old inputs.new
        (fields_reported reported.new) result
        (writer_of (said_by O.speaks W.bytes_taken) W.failure_count writer.old)
        (writer_of (said_by O.speaks W.bytes_taken) W.failure_count writer.new) }
{
    let answer = run_inputs(alloc, observer, inputs, writer, reported);
    end(alloc, answer, writer)
}

/// Runs a log as `run_files` does, and writes its report, with a line for every scan.
pub fn report_files<P: ByteIn, T: ByteIn, N: ByteIn, L: ByteIn, W: ByteOut>(
    alloc: Global,
    inputs: &mut RunInputs<P, T, N, L>,
    writer: &mut W,
    reported: &mut RefusedRow,
) -> Ending
    ensures runs { RunsAs (report_observed None) inputs.old inputs.new
        (fields_reported reported.new) result
        (writer_of W.bytes_taken W.failure_count writer.old)
        (writer_of W.bytes_taken W.failure_count writer.new) }
    // The text that is loaded has the headline, and what is written is the report of the rows of which it speaks.
    ensures headline { OfRunsByTheHeadline (report_observed None) inputs.old
        (λ allowed. EndsAs allowed result (W.bytes_taken writer.old)
        (W.bytes_taken writer.new)) }
    // Each complete request is answered once, in a frame, so that a host can count the answers.
    ensures frames { (plate : PlateData) → IsPlate plate → AnswersInFrames plate }
    // No answer to a row, nor the line that reports it, is longer than the longest row allows.
    ensures short { (plate : PlateData) → IsPlate plate → AnswersAreShort plate }
{
    run_files(alloc, &mut Report::new(alloc), inputs, writer, reported)
}

/// Runs a log as `run_files` does, and writes its report, with the lines of the last `last` scans
/// alone, 1 to 1000: the answers of the line as their rows come, and those scans after them.
pub fn last_files<P: ByteIn, T: ByteIn, N: ByteIn, L: ByteIn, W: ByteOut>(
    alloc: Global,
    last: u16,
    inputs: &mut RunInputs<P, T, N, L>,
    writer: &mut W,
    reported: &mut RefusedRow,
) -> Ending
    requires few { (1 ≤ last) × (last ≤ 1000) }
    ensures runs { RunsAs (report_observed (Some last)) inputs.old inputs.new
        (fields_reported reported.new)
        result
        (writer_of W.bytes_taken W.failure_count writer.old)
        (writer_of W.bytes_taken W.failure_count writer.new) }
    ensures headline { OfRunsByTheHeadline (report_observed (Some last)) inputs.old
        (λ allowed. EndsAs allowed result (W.bytes_taken writer.old)
        (W.bytes_taken writer.new)) }
{
    match LastScans::new(alloc, last) {
        Ok(mut scans) => run_files(alloc, &mut scans, inputs, writer, reported),
        Err(_) => Ending::NoMemory,
    }
}
