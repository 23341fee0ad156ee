ghost use Rattle.std.specs.Prelude.{◌≡◌, IfErr, IfOk, option_map};
ghost use Rattle.wc_controller.specs.{RunsAs, OfPrograms, EndsUnwritten, IsAt};
ghost use Rattle.wc_record.specs.Reported.{fields_reported};
ghost use Rattle.wc_view_picture.specs.Seen.{IsUnknownOf, drawn, unsaid};

use crate::picture::Picture;
use std::alloc::Global;
use wc_controller::{Ending, Input, RefusedRow, RunInputs, run_inputs};
use wc_model::{ByteIn, ByteOut};
use wc_view_watch::{UnknownName, is_at_names};

/// Runs a log as `run_files` does, and in place of its report writes a picture of it after its rows: an SVG whose size does not
/// grow with the log. If there is a list of names, with commas between them, it draws the numbers of the first four variables
/// too, which are named as `watch_files` has it. What is refused is in the ending, and a refused row in the picture's heading
/// too; no line of it is written, so that the output is one SVG, or nothing if an input before the log is refused. What is kept
/// of the rows is allocated at the first of them. No clause says what is drawn; a write fault and out of memory end the run, as
/// they end that of a report. The first name of the list that no program has is refused before the first row.
pub fn show_files<P: ByteIn, T: ByteIn, N: ByteIn, L: ByteIn, W: ByteOut>(
    alloc: Global,
    names: Option<&[u8]>,
    inputs: &mut RunInputs<P, T, N, L>,
    writer: &mut W,
    reported: &mut RefusedRow,
) -> Result<Ending, UnknownName>
    // The name is the first one of the list that no program has.
    ensures unknown { IfErr result (λ name. OfPrograms inputs.old.program inputs.old.next
        (λ logic. IsUnknownOf (option_map (λ list. list.now) names.entry) logic name)) }
    // If a name is unknown, no run begins, and nothing is written.
    ensures runs { IfOk result (λ ending. RunsAs
        (drawn (option_map (λ list. list.now) names.entry)) inputs.old inputs.new
        (fields_reported reported.new) ending (unsaid (W.failure_count writer.old))
        (unsaid (W.failure_count writer.new))) }
    // So no ending names them.
    ensures named { IfOk result (λ ending. ¬ (IsAt Input.Names ending)) }
    // Nothing is written if a name is unknown, or an input before the log is refused or unread.
    ensures nothing { IfErr result (λ name. W.bytes_taken writer.new ≡ W.bytes_taken writer.old) }
    ensures silent { IfOk result (λ ending. EndsUnwritten ending (W.bytes_taken writer.old)
        (W.bytes_taken writer.new)) }
{
    let mut picture = Picture::new(alloc, names);
    let answer = run_inputs(alloc, &mut picture, inputs, writer, reported);
    let ending = Ending::of(answer);
    if is_at_names(&ending) {
        return Err(picture.names.unknown());
    }
    Ok(ending)
}
