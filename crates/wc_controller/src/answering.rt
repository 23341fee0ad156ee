ghost use Rattle.std.specs.Prelude.{◌≡◌, ◌⊎◌, ℕ, List, Some, IfSome, Ok};
ghost use Rattle.wc_controller.specs.Blames.{BlamesPart, StopsForPart};
ghost use Rattle.wc_controller.specs.Endings.{EndsAs, IsReadFaultAt, TakesInput, ReportsFailures, ReportsReadEndings, ReportsReadFaults, ReportsWriteFaults, WritesUpTo, fault_in_memory, raised};
ghost use Rattle.wc_controller.specs.Frames.{AnswersInFrames};
ghost use Rattle.wc_controller.specs.HeadlineRuns.{AnswersByTheHeadline};
ghost use Rattle.wc_controller.specs.Files.{Allows, AllowsSections, Gives, IsStatus};
ghost use Rattle.wc_job.specs.Views.{sections_view};
ghost use Rattle.wc_laws_loading.specs.Laws.{HasOne};
ghost use Rattle.wc_model.specs.Definitions.{IsPlate, PlateData, sections_of, HasFailedSince};
ghost use Rattle.wc_record.specs.Reported.{fields_reported};

use crate::ending::{Ending, InputFault, end};
use crate::loaded::{RunPrograms, load_input, run_loaded};
use crate::reading::read_input;
use std::alloc::Global;
use wc_job::{Input, Sections, sections};
use wc_model::{ByteIn, ByteOut, Device};
use wc_plate::plate;
use wc_record::RefusedRow;
use wc_run::{Report, RunFault};

/// What stopped a run of a log in memory: reading it fails only when out of memory.
fn stopped_in_memory(stopped: InputFault) -> InputFault
    ensures input { result.input ≡ stopped.input }
    ensures fault { result.fault ≡ fault_in_memory stopped.fault }
{
    let fault = match stopped.fault {
        RunFault::Read => RunFault::Memory,
        fault => fault,
    };
    InputFault {
        input: stopped.input,
        fault,
    }
}

/// Answers a job by its sections.
fn answer_sections<W: ByteOut>(
    alloc: Global,
    sections: Sections<'_>,
    writer: &mut W,
    reported: &mut RefusedRow,
) -> Result<(), InputFault>
    ensures writes { WritesUpTo (AllowsSections (sections_view sections.entry)) (raised result)
        (W.bytes_taken writer.old) (W.bytes_taken writer.new) }
    ensures blames { StopsForPart (fields_reported reported.new) (Ok (sections_view sections.entry))
        result }
    ensures held { ¬ (raised result ≡ Some RunFault.Read) }
    ensures failures { ReportsWriteFaults (raised result) (W.failure_count writer.old)
        (W.failure_count writer.new) }
{
    let plate = match plate(alloc, sections.plate) {
        Ok(plate) => plate,
        Err(fault) => return Err(InputFault {
            input: Input::Plate,
            fault: RunFault::from(fault),
        }),
    };
    let loaded = match load_input(alloc, Input::Program, sections.program) {
        Ok(loaded) => loaded,
        Err(stopped) => return Err(stopped),
    };
    let programs = RunPrograms {
        plate,
        text: sections.program,
        loaded,
        next: sections.next,
    };
    let mut report = Report::new(alloc);
    let mut reader = Device::new(sections.log);
    match run_loaded(alloc, &mut report, programs, &mut reader, writer, reported) {
        Ok(()) => Ok(()),
        Err(stopped) => Err(stopped_in_memory(stopped)),
    }
}

/// Reads a job and answers it, up to its refusal.
fn answer_input<R: ByteIn, W: ByteOut>(
    alloc: Global,
    reader: &mut R,
    writer: &mut W,
    reported: &mut RefusedRow,
) -> Result<(), InputFault>
    ensures writes { IfSome (R.bytes_left reader.old)
        (λ bytes. WritesUpTo (Allows bytes) (raised result)
        (W.bytes_taken writer.old) (W.bytes_taken writer.new)) }
    ensures blames { IfSome (R.bytes_left reader.old)
        (λ bytes. StopsForPart (fields_reported reported.new) (sections_of bytes) result) }
    ensures reads { ReportsReadFaults Input.Job result (R.failure_count reader.old)
        (R.failure_count reader.new) }
    ensures own { (input : Input) → IsReadFaultAt input result → input ≡ Input.Job }
    ensures failures { ReportsWriteFaults (raised result) (W.failure_count writer.old)
        (W.failure_count writer.new) }
    ensures taken { TakesInput (R.bytes_left reader.old) (R.bytes_left reader.new) }
{
    match read_input(alloc, Input::Job, reader) {
        Ok(bytes) => match sections(&bytes) {
            Ok(sections) => answer_sections(alloc, sections, writer, reported),
            Err(number) => Err(InputFault {
                input: Input::Job,
                fault: RunFault::Refused { number, place: 0 },
            }),
        },
        Err(stopped) => Err(stopped),
    }
}

/// Reads a job, of at most 1048576 bytes, and answers it: its plate, its program, its next program, if it has one,
/// and its log are read, the log is run row by row, and each line is written as its row comes. If something is
/// refused, the refusal with its number and its place is written after the lines of the rows before it, and a
/// refused row of the log is reported. A read fault comes if the reader failed in this call, and only then, a
/// write fault if the writer did; at such a fault, and when out of memory, a prefix of the output is written, or
/// nothing.
pub fn answer_job<R: ByteIn, W: ByteOut>(
    alloc: Global,
    reader: &mut R,
    writer: &mut W,
    reported: &mut RefusedRow,
) -> Ending
    ensures ends { IfSome (R.bytes_left reader.old)
        (λ bytes.
        EndsAs (Allows bytes) result (W.bytes_taken writer.old) (W.bytes_taken writer.new)) }
    // The part that a refusal names is the one that breaks the rule.
    ensures blames { IfSome (R.bytes_left reader.old)
        (λ bytes. BlamesPart (fields_reported reported.new) (sections_of bytes) result) }
    ensures reads { ReportsReadEndings Input.Job result (R.failure_count reader.old)
        (R.failure_count reader.new) }
    ensures own { (input : Input) → result ≡ Ending.ReadFault input → input ≡ Input.Job }
    ensures failures { ReportsFailures result (W.failure_count writer.old)
        (W.failure_count writer.new) }
    // It reads no further than the byte that makes a job too long.
    ensures taken { TakesInput (R.bytes_left reader.old) (R.bytes_left reader.new) }
{
    let answer = answer_input(alloc, reader, writer, reported);
    end(alloc, answer, writer)
}

/// Answers a job as `answer_job` does. The status is 0 if all rows ran, 1 if something was
/// refused, 3 if the reader or the writer failed in this call, and 4 when out of memory.
pub fn job<R: ByteIn, W: ByteOut>(alloc: Global, reader: &mut R, writer: &mut W) -> u8
    ensures gives { IfSome (R.bytes_left reader.old)
        (λ bytes.
        Gives (Allows bytes) result (W.bytes_taken writer.old) (W.bytes_taken writer.new)) }
    ensures status { IsStatus result }
    ensures device { result ≡ 3
        → HasFailedSince (R.failure_count reader.old) (R.failure_count reader.new)
        ⊎ HasFailedSince (W.failure_count writer.old) (W.failure_count writer.new) }
    ensures steady { ¬ (result ≡ 3)
        → (R.failure_count reader.new ≡ R.failure_count reader.old)
        × (W.failure_count writer.new ≡ W.failure_count writer.old) }
    ensures taken { TakesInput (R.bytes_left reader.old) (R.bytes_left reader.new) }
    // The text that is loaded has the headline, and what is written is the report of the rows of which it speaks.
    ensures headline { IfSome (R.bytes_left reader.old)
        (λ bytes. Gives (AnswersByTheHeadline bytes) result (W.bytes_taken writer.old)
        (W.bytes_taken writer.new)) }
    // Each complete request is answered once, in a frame, so that a host can count the answers.
    ensures frames { (plate : PlateData) → IsPlate plate → AnswersInFrames plate }
    // There is one such answer: a job that is run again, without a fault, writes the same bytes.
    ensures replay { (bytes : List ℕ) → HasOne (Allows bytes) }
{
    let mut reported = RefusedRow::new(alloc);
    answer_job(alloc, reader, writer, &mut reported).status()
}
