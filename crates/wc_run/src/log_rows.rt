ghost use Rattle.std.specs.Prelude.{◌≡◌, ◌<◌, ◌^◌, List, [], Option, IfErr, OnOk};
ghost use Rattle.wc_model.specs.Definitions.{LogOf, Record, PlateData, Past, log_for, Logic};
ghost use Rattle.wc_record.specs.{HasLeft, last_ms, rows_read, Reads, current_record, IsDataInRange, head_data_view, head_view};
ghost use Rattle.wc_run.specs.Doing.{Does, RunsRows, seen_writing};
ghost use Rattle.wc_run.specs.Observing.{Start, said};
ghost use Rattle.wc_run.specs.Runs.{IsFaultAt, ReportsRow, ReportsWrites};
ghost use Rattle.wc_run.specs.Representation.{IsNotAfter, Represents};

use crate::fault::RunFault;
use crate::log_scale::LogScale;
use crate::observer::Observer;
use crate::row_seen::{Answers, RowSeen};
use wc_model::{ByteIn, ByteOut};
use wc_record::{RowHead, Rows};
use wc_store::Store;

/// Does a row, with the bytes that are borrowed with it, and shows it to the observer.
#[inline(always)]
fn run_row<S: Store, W: ByteOut, O: Observer<S, W>>(
    observer: &mut O,
    scale: &mut LogScale<'_, S>,
    answers: &mut Answers,
    row: RowHead,
    bytes: &[u8],
    writer: &mut W,
) -> Result<(), RunFault>
    requires in_range { IsDataInRange (head_data_view bytes.now row.kind) }
    requires early { row.ms < 2 ^ 40 }
    requires in_order { IsNotAfter scale.old row.ms }
    ensures settings { O.settings observer.new ≡ O.settings observer.old }
    ensures plan { O.plan observer.new ≡ O.plan observer.old }
    ensures does { (start : Start) (plate : PlateData) (logic : Option Logic) (past : Past)
        → Represents scale.old plate logic past
        → seen_writing O.has_seen O.has_written start (observer.old, W.bytes_taken writer.old)
        plate logic past
        → Does (seen_writing O.has_seen O.has_written start) (O.plan observer.old) plate logic past
        (head_view bytes.now row) scale.new (observer.new, W.bytes_taken writer.new) result
        (said O.speaks (W.bytes_taken writer.old))
        (said O.speaks (W.bytes_taken writer.new)) }
    ensures place { IfErr result (IsFaultAt row.number) }
    ensures in_order { OnOk result (IsNotAfter scale.new row.ms) }
    ensures failures { ReportsWrites result (W.failure_count writer.old)
        (W.failure_count writer.new) }
{
    let looks = observer.looks_at(row.ms);
    let scan = scale.take(answers, looks, row, bytes)?;
    let seen = RowSeen {
        row,
        bytes,
        answer: &answers.bytes,
        scan,
    };
    observer.see(&seen, scale, writer)
}

/// Runs the rows that are left, and returns their number.
pub(crate) fn run_rows<S: Store, W: ByteOut, O: Observer<S, W>, R: ByteIn>(
    observer: &mut O,
    scale: &mut LogScale<'_, S>,
    answers: &mut Answers,
    rows: &mut Rows<'_, R>,
    writer: &mut W,
) -> Result<u32, RunFault>
    requires unread { rows_read rows.old ≡ 0 }
    requires in_order { IsNotAfter scale.old (last_ms rows.old) }
    ensures settings { O.settings observer.new ≡ O.settings observer.old }
    ensures plan { O.plan observer.new ≡ O.plan observer.old }
    ensures runs { (log : LogOf) → HasLeft R.bytes_left rows.old log
        → (start : Start) (plate : PlateData) (logic : Option Logic)
        → Represents scale.old plate logic []
        → seen_writing O.has_seen O.has_written start (observer.old, W.bytes_taken writer.old)
        plate logic []
        → RunsRows (seen_writing O.has_seen O.has_written start) (O.plan observer.old) plate logic
        (log_for logic log) (observer.new, W.bytes_taken writer.new) result
        (said O.speaks (W.bytes_taken writer.old))
        (said O.speaks (W.bytes_taken writer.new)) }
    ensures reported { (records : List Record) → Reads R.bytes_left rows.old records
        → ReportsRow records (current_record rows.new) result }
    ensures failures { ReportsWrites result (W.failure_count writer.old)
        (W.failure_count writer.new) }
{
    let mut count = 0;
    loop {
        let Some(row) = rows.next_head()? else {
            return Ok(count);
        };
        run_row(observer, scale, answers, row, rows.bytes(), writer)?;
        count += 1;
    }
}
