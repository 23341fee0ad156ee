ghost use Rattle.std.specs.Prelude.{◌≡◌, ◌<◌, ◌+◌, ◌++◌, IfErr, IfOk, IsOkUnless, OnOk};
ghost use Rattle.wc_model.specs.Say.Report.{AnswerLine, answer_line, line_text, report_text};
ghost use Rattle.wc_run.specs.Doing.{Writes};
ghost use Rattle.wc_run.specs.Observing.{lines_of_seen, line_of_record, lines_of_records};
ghost use Rattle.wc_run.specs.Runs.{IsNoRefusal, ReportsWrites};

use crate::fault::RunFault;
use crate::log_scale::LogScale;
use crate::observer::Observer;
use crate::program::Program;
use crate::row_seen::RowSeen;
use std::alloc::Global;
use wc_model::{ByteOut, Steps, write_whole};
use wc_record::{Record, Recorder};
use wc_report::{put_answer_line, put_scan_line};
use wc_store::Store;

/// Appends the line of a scan by its record to a text.
#[inline(always)]
pub fn put_record(text: &mut Vec<u8>, scan: &Record) -> Result<(), RunFault>
    ensures text { OnOk result
        (text.new.items ≡ text.old.items ++ line_text (line_of_record scan.now)) }
    ensures memory { IsOkUnless result RunFault.Memory }
{
    // A copy, so that what is seen of a row has no address and stays in registers.
    let outputs = scan.outputs;
    put_scan_line(text, scan.ms, Steps(scan.steps), &outputs)?;
    Ok(())
}

/// The lines of the scans whose records are kept, in their order.
pub(crate) fn last_text(alloc: Global, recorder: &Recorder) -> Result<Vec<u8>, RunFault>
    ensures text { IfOk result
        (λ text. text.items ≡ report_text (lines_of_records recorder.now.records)) }
    ensures memory { IsOkUnless result RunFault.Memory }
{
    let mut lines = Vec::new(alloc);
    for index in 0..recorder.len() {
        let Some(scan) = recorder.get(index) else {
            continue;
        };
        put_record(&mut lines, scan)?;
    }
    Ok(lines)
}

/// Writes a text. Most rows say nothing, and then the writer is not asked.
#[inline(always)]
pub fn write_text<W: ByteOut>(text: &[u8], writer: &mut W) -> Result<(), RunFault>
    ensures writes { Writes text.now result (W.bytes_taken writer.old) (W.bytes_taken writer.new) }
    ensures held { IfErr result IsNoRefusal }
    ensures failures { ReportsWrites result (W.failure_count writer.old)
        (W.failure_count writer.new) }
{
    if text.is_empty() {
        return Ok(());
    }
    write_whole(writer, text)?;
    Ok(())
}

/// Appends the line of an answer to a text. It is separate, so that a row without an answer clears no space for a fault.
#[inline(always)]
fn put_line_of_answer(text: &mut Vec<u8>, ms: u64, answer: &[u8]) -> Result<(), RunFault>
    ensures text { OnOk result
        (text.new.items ≡ text.old.items ++ line_text (AnswerLine ms answer.now)) }
    ensures memory { IsOkUnless result RunFault.Memory }
{
    put_answer_line(text, ms, answer)?;
    Ok(())
}

/// Appends the line of an answer to a text, and nothing of an empty one.
#[inline(always)]
pub fn put_answer(text: &mut Vec<u8>, seen: &RowSeen<'_>) -> Result<(), RunFault>
    ensures text { OnOk result (text.new.items
        ≡ text.old.items ++ report_text (answer_line seen.now.row.ms seen.now.answer.now)) }
    ensures memory { IsOkUnless result RunFault.Memory }
{
    if seen.answer.is_empty() {
        return Ok(());
    }
    put_line_of_answer(text, seen.row.ms, seen.answer)
}

/// Appends the lines of a row to a text: its answer's, and its scan's.
#[inline(always)]
pub(crate) fn put_lines(text: &mut Vec<u8>, seen: &RowSeen<'_>) -> Result<(), RunFault>
    ensures text { OnOk result
        (text.new.items ≡ text.old.items ++ report_text (lines_of_seen seen.now)) }
    ensures memory { IsOkUnless result RunFault.Memory }
{
    put_answer(text, seen)?;
    match &seen.scan {
        Some(scan) => put_record(text, &scan.record),
        None => Ok(()),
    }
}

/// Writes the report of a run, each line as its row comes.
#[derive(Drop)]
pub struct Report {
    text: Vec<u8>,
}

impl Report {
    /// Before the first row. It takes no memory.
    pub fn new(alloc: Global) -> Report {
        Report {
            text: Vec::new(alloc),
        }
    }
}

impl<S: Store, W: ByteOut> Observer<S, W> for Report {
    ghost use Rattle.std.specs.Prelude.{◌≡◌, ⊤, false};
    ghost use Rattle.wc_run.specs.Reports.{report_plan};

    ghost settings = { λ _. tt };

    ghost plan = { λ report. report_plan };

    ghost has_seen = { λ report plate logic past. ⊤ };

    ghost looks = { λ _ ms looked. looked ≡ false };

    ghost has_ended = { λ _ _ _ _ _ _ _ _. ⊤ };

    fn begin(
        &mut self,
        _first: Option<Program<'_, '_>>,
        _next: Option<Program<'_, '_>>,
    ) -> Result<(), RunFault> {
        Ok(())
    }

    #[inline(always)]
    fn looks_at(&self, _ms: u64) -> bool {
        false
    }

    #[inline(always)]
    fn see(
        &mut self,
        seen: &RowSeen<'_>,
        _scale: &LogScale<'_, S>,
        writer: &mut W,
    ) -> Result<(), RunFault> {
        self.text.clear();
        put_lines(&mut self.text, seen)?;
        write_text(&self.text, writer)
    }

    fn end(&mut self, _refused: Option<(u16, u32)>, _writer: &mut W) -> Result<(), RunFault> {
        Ok(())
    }
}
