ghost use Rattle.std.specs.Prelude.{◌≡◌, IfErr, IfSome, IfOk};
ghost use Rattle.wc_controller.specs.Checking.{Checks, ChecksAlone};
ghost use Rattle.wc_controller.specs.Endings.{EndsAs, IsAt, TakesInput, ReportsFailures, ReportsReadEndings, ReportsReadFaults, ReportsWriteFaults, WritesUpTo, raised};
ghost use Rattle.wc_controller.specs.Files.{AnswersCheckFile};
ghost use Rattle.wc_run.specs.Runs.{ReportsWrites};
ghost use Rattle.wc_controller.specs.Loads.{IsNeverRefused, IsRefusedLoad, IsTheOnlyRefusal};
ghost use Rattle.wc_model.specs.Definitions.{text_view, PlateData, IsLoaded};
ghost use Rattle.wc_controller.specs.Headline.{HasTheHeadline, IsTheHeadline};
ghost use Rattle.wc_laws_loading.specs.Laws.{IsSmall};

use crate::ending::{Ending, InputFault, end};
use crate::reading::read_input;
use crate::unit_lines::write_units;
use std::alloc::Global;
use wc_cost::{Loaded, cost};
use wc_declare::tables;
use wc_job::Input;
use wc_model::{ByteIn, ByteOut, Fault};
use wc_reader::read;
use wc_run::RunFault;
use wc_verify::verify;

/// Loads a program text in five passes: tokens, reading, declarations, bodies, cost. `Err(Refused)`
/// has the number and the line of the first fault of the first pass that has one, by the list of
/// refusals; there is no other, and the text is then loaded as nothing. `Err(Memory)` means out of
/// memory. With what is loaded every scan ends, within the program's bound, and leaves the line as
/// it is with no program. It is no larger than its text.
pub fn load<'a>(alloc: Global, text: &'a [u8]) -> Result<Loaded<'a>, Fault>
    ensures loaded { IfOk result (λ loaded. IsLoaded text.now (text_view loaded.source)) }
    ensures small { IfOk result (λ loaded. IsSmall text.now (text_view loaded.source)) }
    ensures headline { IfOk result
        (λ loaded. (plate : PlateData) → HasTheHeadline plate (text_view loaded.source)) }
    ensures refused { IfErr result (λ fault. IsRefusedLoad text.now fault) }
    ensures accepted { IfOk result (λ loaded. IsNeverRefused text.now) }
    ensures only { IfErr result (λ fault. IsTheOnlyRefusal text.now fault) }
{
    let source = read(alloc, text)?;
    let tables = tables(alloc, &source)?;
    let checked = verify(alloc, source, tables)?;
    cost(alloc, checked)
}

/// The headline as one law over the definitions: for every plate, every program text that is loaded from its bytes and every list of rows:
/// whatever rows have come, in whatever order, the next scan ends, is never stuck, and executes no
/// more items than the program's bound; and without the lines of its scans the report is, byte for
/// byte, that of a run with no program.
pub fn the_headline()
    ensures { IsTheHeadline }
{}

/// Checks a program text, and writes for each unit, in the text's order, a line with its name and
/// the number of steps that it takes at most; with `paths` the lines of its worst path after it.
/// `Refused` names the fault by which the text is not loaded, and nothing is written. `Write` comes
/// only if the writer failed in this call; a prefix of the report is then written. `Memory` means
/// out of memory, before anything is written. `Read` never comes.
pub fn check<W: ByteOut>(
    alloc: Global,
    text: &[u8],
    paths: bool,
    writer: &mut W,
) -> Result<(), RunFault>
    ensures checks { Checks paths text.now result (W.bytes_taken writer.old)
        (W.bytes_taken writer.new) }
    // One of several paths that are equally long is the worst, so a text has no other report.
    ensures alone { ChecksAlone paths text.now result (W.bytes_taken writer.old)
        (W.bytes_taken writer.new) }
    ensures failures { ReportsWrites result (W.failure_count writer.old)
        (W.failure_count writer.new) }
{
    let loaded = load(alloc, text)?;
    write_units(alloc, &loaded, paths, writer)
}

/// Reads and checks a program, up to its refusal.
fn check_input<T: ByteIn, W: ByteOut>(
    alloc: Global,
    paths: bool,
    program: &mut T,
    writer: &mut W,
) -> Result<(), InputFault>
    ensures writes { IfSome (T.bytes_left program.old)
        (λ bytes. WritesUpTo (AnswersCheckFile paths bytes) (raised result)
        (W.bytes_taken writer.old) (W.bytes_taken writer.new)) }
    ensures own { IfErr result (λ stopped. stopped.input ≡ Input.Program) }
    ensures program { ReportsReadFaults Input.Program result (T.failure_count program.old)
        (T.failure_count program.new) }
    ensures failures { ReportsWriteFaults (raised result) (W.failure_count writer.old)
        (W.failure_count writer.new) }
    ensures taken { TakesInput (T.bytes_left program.old) (T.bytes_left program.new) }
{
    let text = read_input(alloc, Input::Program, program)?;
    match check(alloc, &text, paths, writer) {
        Ok(()) => Ok(()),
        Err(fault) => Err(InputFault {
            input: Input::Program,
            fault,
        }),
    }
}

/// Checks a program as `check` does, and writes the line of its refusal. A read fault comes if
/// the reader failed in this call, and only then, a write fault if the writer did; a prefix of
/// the output is then written, or nothing, as when out of memory.
pub fn check_file<T: ByteIn, W: ByteOut>(
    alloc: Global,
    paths: bool,
    program: &mut T,
    writer: &mut W,
) -> Ending
    ensures ends { IfSome (T.bytes_left program.old)
        (λ bytes. EndsAs (AnswersCheckFile paths bytes) result
        (W.bytes_taken writer.old) (W.bytes_taken writer.new)) }
    // It has one input, which is what it names.
    ensures own { ¬ IsAt Input.Job result }
    ensures no_plate { ¬ IsAt Input.Plate result }
    ensures no_log { ¬ IsAt Input.Log result }
    ensures program { ReportsReadEndings Input.Program result (T.failure_count program.old)
        (T.failure_count program.new) }
    ensures failures { ReportsFailures result (W.failure_count writer.old)
        (W.failure_count writer.new) }
    // It reads no further than the byte that makes a program too long.
    ensures taken { TakesInput (T.bytes_left program.old) (T.bytes_left program.new) }
{
    let answer = check_input(alloc, paths, program, writer);
    end(alloc, answer, writer)
}
