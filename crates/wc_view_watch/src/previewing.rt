ghost use Rattle.std.specs.Prelude.{◌≡◌, ◌+◌, IfErr, IfOk, IfSome, IsOkUnless};
ghost use Rattle.wc_controller.specs.Blames.{Blames, RefusesProgram, RefusesText, StopsFor};
ghost use Rattle.wc_controller.specs.Endings.{EndsAs, IsAt, IsReadFaultAt, StopsAt, ReportsFailures, ReportsReadEndings, ReportsReadFaults, ReportsWriteFaults, WritesUpTo, raised};
ghost use Rattle.wc_job.specs.Views.{TakesAtMost};
ghost use Rattle.wc_model.specs.Run.JobSections.{longest_job};
ghost use Rattle.wc_view_watch.specs.Previews.{AnswersNew, AnswersPreview, IsOfWriting, IsPreview};

use std::alloc::Global;
use wc_controller::{Ending, Input, InputFault, RunFault, end, load, read_input, text_of_units};
use wc_cost::Loaded;
use wc_model::{ByteIn, ByteOut, write_whole};
use wc_view_changes::changes;

/// What is written of two programs: the lines of the new one's units, and what a change from the old one keeps and loses.
/// `Memory` is the only fault.
fn preview_text(
    alloc: Global,
    paths: bool,
    old: &Loaded<'_>,
    new: &Loaded<'_>,
) -> Result<Vec<u8>, RunFault>
    ensures preview { IfOk result
        (λ text. IsPreview paths old.now.source new.now.source
        (record { output = text.items; status = 0 })) }
    ensures memory { IsOkUnless result RunFault.Memory }
{
    let mut text = text_of_units(alloc, new, paths)?;
    let lines = changes(alloc, old, new)?;
    text.extend_from_slice(&lines)?;
    Ok(text)
}

/// Writes what is reported about two programs.
fn write_preview<W: ByteOut>(
    alloc: Global,
    paths: bool,
    old: &Loaded<'_>,
    new: &Loaded<'_>,
    writer: &mut W,
) -> Result<(), InputFault>
    ensures writes { WritesUpTo (IsPreview paths old.now.source new.now.source)
        (raised result) (W.bytes_taken writer.old) (W.bytes_taken writer.new) }
    // No input is refused here, and none is read.
    ensures held { IfErr result
        (λ stopped. (stopped.input ≡ Input.Next) × IsOfWriting stopped.fault) }
    ensures failures { ReportsWriteFaults (raised result) (W.failure_count writer.old)
        (W.failure_count writer.new) }
{
    let input = Input::Next;
    let text = preview_text(alloc, paths, old, new).map_err(|fault| InputFault { input, fault })?;
    let fault = RunFault::Write;
    write_whole(writer, &text).map_err(|_| InputFault { input, fault })
}

/// Loads the new program after the old one, and writes what is reported about both.
fn preview_next<W: ByteOut>(
    alloc: Global,
    paths: bool,
    old: &Loaded<'_>,
    text: &[u8],
    writer: &mut W,
) -> Result<(), InputFault>
    ensures writes { WritesUpTo (AnswersNew paths old.now.source text.now)
        (raised result) (W.bytes_taken writer.old) (W.bytes_taken writer.new) }
    ensures blames { IfErr result (λ stopped. stopped.input ≡ Input.Next
        → RefusesText text.now stopped.fault) }
    ensures own { IfErr result (λ stopped. stopped.input ≡ Input.Next) }
    ensures held { ¬ IsReadFaultAt Input.Next result }
    ensures failures { ReportsWriteFaults (raised result) (W.failure_count writer.old)
        (W.failure_count writer.new) }
{
    match load(alloc, text) {
        Ok(new) => write_preview(alloc, paths, old, &new, writer),
        Err(fault) => Err(InputFault {
            input: Input::Next,
            fault: RunFault::from(fault),
        }),
    }
}

/// Reads and loads the old program, then the new one, up to a refusal. What follows a program that is refused is not read.
fn preview_inputs<T: ByteIn, N: ByteIn, W: ByteOut>(
    alloc: Global,
    paths: bool,
    program: &mut T,
    next: &mut N,
    writer: &mut W,
) -> Result<(), InputFault>
    ensures writes { IfSome (T.bytes_left program.old) (λ text. IfSome (N.bytes_left next.old)
        (λ other. WritesUpTo (AnswersPreview paths text other) (raised result)
        (W.bytes_taken writer.old) (W.bytes_taken writer.new))) }
    ensures blames_program { StopsFor Input.Program RefusesProgram
        (T.bytes_left program.old) result }
    ensures blames_next { StopsFor Input.Next RefusesProgram (N.bytes_left next.old) result }
    ensures unread { StopsAt Input.Program result
        → N.spent_count next.new ≡ N.spent_count next.old }
    ensures no_job { ¬ StopsAt Input.Job result }
    ensures no_plate { ¬ StopsAt Input.Plate result }
    ensures no_log { ¬ StopsAt Input.Log result }
    ensures program { ReportsReadFaults Input.Program result (T.failure_count program.old)
        (T.failure_count program.new) }
    ensures next { ReportsReadFaults Input.Next result (N.failure_count next.old)
        (N.failure_count next.new) }
    ensures failures { ReportsWriteFaults (raised result) (W.failure_count writer.old)
        (W.failure_count writer.new) }
    ensures taken_program { TakesAtMost (longest_job + 1) (T.bytes_left program.old)
        (T.bytes_left program.new) }
    ensures taken_next { TakesAtMost (longest_job + 1) (N.bytes_left next.old)
        (N.bytes_left next.new) }
{
    let text = read_input(alloc, Input::Program, program)?;
    let loaded = match load(alloc, &text) {
        Ok(loaded) => loaded,
        Err(fault) => {
            return Err(InputFault {
                input: Input::Program,
                fault: RunFault::from(fault),
            });
        }
    };
    let other = read_input(alloc, Input::Next, next)?;
    preview_next(alloc, paths, &loaded, &other, writer)
}

/// Looks at a change of the program before it is made: the old program is read and checked first, then the new one; then the
/// lines of the new one's units are written, with `paths` with their paths, and after them a line for each variable of the
/// new program, which says whether it keeps its value, and one for each variable of the old program that is lost. The first
/// program that breaks a rule is refused, by its line alone, and what follows it is not read. A read fault names the program
/// whose reader failed in this call; a write fault comes if the writer failed in this call, and only then. At such a
/// fault, and when out of memory, a prefix of the output is written, or nothing.
pub fn preview_files<T: ByteIn, N: ByteIn, W: ByteOut>(
    alloc: Global,
    paths: bool,
    program: &mut T,
    next: &mut N,
    writer: &mut W,
) -> Ending
    ensures ends { IfSome (T.bytes_left program.old) (λ text. IfSome (N.bytes_left next.old)
        (λ other. EndsAs (AnswersPreview paths text other) result
        (W.bytes_taken writer.old) (W.bytes_taken writer.new))) }
    // The program that a refusal names is the one that breaks the rule.
    ensures blames_program { Blames Input.Program RefusesProgram
        (T.bytes_left program.old) result }
    ensures blames_next { Blames Input.Next RefusesProgram (N.bytes_left next.old) result }
    ensures unread { IsAt Input.Program result
        → N.spent_count next.new ≡ N.spent_count next.old }
    // It has two inputs, and names no other.
    ensures no_job { ¬ IsAt Input.Job result }
    ensures no_plate { ¬ IsAt Input.Plate result }
    ensures no_log { ¬ IsAt Input.Log result }
    ensures program { ReportsReadEndings Input.Program result (T.failure_count program.old)
        (T.failure_count program.new) }
    ensures next { ReportsReadEndings Input.Next result (N.failure_count next.old)
        (N.failure_count next.new) }
    ensures failures { ReportsFailures result (W.failure_count writer.old)
        (W.failure_count writer.new) }
    // It reads no further than the byte that makes a program too long.
    ensures taken_program { TakesAtMost (longest_job + 1) (T.bytes_left program.old)
        (T.bytes_left program.new) }
    ensures taken_next { TakesAtMost (longest_job + 1) (N.bytes_left next.old)
        (N.bytes_left next.new) }
{
    let answer = preview_inputs(alloc, paths, program, next, writer);
    end(alloc, answer, writer)
}
