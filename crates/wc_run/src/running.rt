ghost use Rattle.std.specs.Prelude.{◌≡◌, ◌≤◌, ℕ, false, List, [], Option, IfSome};
ghost use Rattle.wc_model.specs.Definitions.{LogOf, Record, log_of, PlateData, log_for, Logic};
ghost use Rattle.wc_record.specs.{HasCause, records_of, fields_reported};
ghost use Rattle.wc_run.specs.Doing.{EndsWhole, IsClassified, RunsRows, WritesBy, is_cut_short, refused_in, seen_writing};
ghost use Rattle.wc_run.specs.Observing.{Plan, Start, said};
ghost use Rattle.wc_run.specs.Runs.{HasNotFailed, ReportsFaults, ReportsRefused, ReportsRow, ReportsWrites};
ghost use Rattle.wc_run.specs.Representation.{IsNotAfter, Represents};

use crate::fault::RunFault;
use crate::log_rows::run_rows;
use crate::log_scale::LogScale;
use crate::observer::Observer;
use crate::row_seen::Answers;
use std::alloc::Global;
use wc_model::{ByteIn, ByteOut};
use wc_record::{RefusedRow, Rows, is_exhausted};
use wc_store::Store;

/// Whether a device failed or memory was refused before a log came to its end or to a refused row.
fn is_cut_short(answer: &Result<u32, RunFault>) -> bool
    ensures { result ≡ is_cut_short answer.now }
{
    match answer {
        Ok(_) => false,
        Err(fault) => match fault {
            RunFault::Refused { .. } => false,
            _ => true,
        },
    }
}

/// The number and the row of a refusal.
fn refused_in(answer: &Result<u32, RunFault>) -> Option<(u16, u32)>
    ensures { result ≡ refused_in answer.now }
{
    match answer {
        Ok(_) => None,
        Err(fault) => match fault {
            RunFault::Refused { number, place } => Some((*number, *place)),
            _ => None,
        },
    }
}

/// Informs the observer that the rows are over, unless a device failed or memory was refused. If the
/// log's reader failed, that is reported, also if every row was read all the same: the library that
/// reads records does not promise to report each failure.
fn end_rows<S: Store, W: ByteOut, O: Observer<S, W>>(
    observer: &mut O,
    answer: Result<u32, RunFault>,
    has_failed: bool,
    writer: &mut W,
) -> Result<u32, RunFault>
    ensures writes { (start : Start) (plan : Plan) (plate : PlateData) (logic : Option Logic)
        (log : LogOf) (taken : Option (List ℕ)) → O.plan observer.old ≡ plan
        → RunsRows (seen_writing O.has_seen O.has_written start) plan plate logic log
        (observer.old, W.bytes_taken writer.old) answer taken
        (said O.speaks (W.bytes_taken writer.old))
        → WritesBy plan plate logic log result taken (said O.speaks (W.bytes_taken writer.new)) }
    ensures ended { (start : Start) (plan : Plan) (plate : PlateData) (logic : Option Logic)
        (log : LogOf) (taken : Option (List ℕ))
        → RunsRows (seen_writing O.has_seen O.has_written start) plan plate logic log
        (observer.old, W.bytes_taken writer.old) answer taken
        (said O.speaks (W.bytes_taken writer.old))
        → EndsWhole (O.has_ended observer.new (O.settings observer.old)) start plate logic log
        result (W.bytes_taken writer.new) }
    ensures reported { (records : List Record) (fields : Record)
        → ReportsRow records fields answer → ReportsRow records fields result }
    ensures failures { (count : ℕ) → ReportsWrites answer count (W.failure_count writer.old)
        → ReportsWrites result count (W.failure_count writer.new) }
    ensures reader { (before after : ℕ) → (has_failed ≡ false → after ≤ before)
        → HasNotFailed result before after }
{
    if is_cut_short(&answer) {
        return answer;
    }
    if has_failed {
        return Err(RunFault::Read);
    }
    observer.end(refused_in(&answer), writer)?;
    answer
}

/// A read fault if the reader has failed since, or as much was read as may be; else out of
/// memory. A refusal and a write fault stay what they are.
pub fn classify<R: ByteIn>(fault: RunFault, reader: &R, failures: u64, spent: u64) -> RunFault
    ensures classified { IsClassified fault result }
    ensures read { result ≡ RunFault.Read
        → HasCause failures (R.failure_count reader.now) spent (R.spent_count reader.now) }
    ensures memory { result ≡ RunFault.Memory
        → ¬ HasCause failures (R.failure_count reader.now) spent (R.spent_count reader.now) }
{
    if fault != RunFault::Read && fault != RunFault::Memory {
        return fault;
    }
    if reader.failures() > failures
        || reader.failures() == u64::MAX
        || is_exhausted(spent, reader.spent())
    {
        RunFault::Read
    } else {
        RunFault::Memory
    }
}

/// Runs a log on a scale to which no row has come, whoever observes it: each row is read, done and
/// shown before the next row is read, and the observer writes what its plan says of it; after the
/// last row, or the last before a refused one, it writes what its plan says of the end. `Ok` is the
/// number of rows after the first. `Refused` names the first row that breaks a rule, and the rows
/// before it are run and written; that row is reported, the record of the log that has its number.
/// `Read` comes only if the reader failed in this call or as much was read as may be (134217728 bytes
/// and calls), `Write` only if the observer's writer failed in it, `Memory` if an allocation was
/// refused, or a read failed, without such a cause; what is written is then what the plan says of the
/// first rows, at a write fault a prefix of the whole. A run takes no more memory for more rows but
/// for what its observer keeps. No scan is stuck, and none shows a line that only a stuck one would:
/// a machine is made by `Machine::new` alone, of a text that every pass accepts, and its `scan`
/// promises that each scan is done. That takes two things of whoever calls it: the machine has run no
/// scan (`first`), and it represents the logic that the plan speaks of, as `new` promises of the text
/// and its first store.
pub fn run<S: Store, W: ByteOut, O: Observer<S, W>, R: ByteIn>(
    alloc: Global,
    observer: &mut O,
    scale: &mut LogScale<'_, S>,
    reader: &mut R,
    writer: &mut W,
    reported: &mut RefusedRow,
) -> Result<u32, RunFault>
    requires first { IsNotAfter scale.old 0 }
    ensures writes { IfSome (R.bytes_left reader.old)
        (λ bytes. (start : Start) (plate : PlateData) (logic : Option Logic)
        → Represents scale.old plate logic []
        → seen_writing O.has_seen O.has_written start (observer.old, W.bytes_taken writer.old)
        plate logic []
        → WritesBy (O.plan observer.old) plate logic (log_for logic (log_of (records_of bytes)))
        result (said O.speaks (W.bytes_taken writer.old))
        (said O.speaks (W.bytes_taken writer.new))) }
    ensures ended { IfSome (R.bytes_left reader.old)
        (λ bytes. (start : Start) (plate : PlateData) (logic : Option Logic)
        → Represents scale.old plate logic []
        → seen_writing O.has_seen O.has_written start (observer.old, W.bytes_taken writer.old)
        plate logic []
        → EndsWhole (O.has_ended observer.new (O.settings observer.old)) start plate logic
        (log_for logic (log_of (records_of bytes))) result (W.bytes_taken writer.new)) }
    ensures reported { ReportsRefused (R.bytes_left reader.old)
        (fields_reported reported.new) result }
    // A failed reader, or the limit on what is read, is not reported as out of memory, nor a writer
    // that failed as anything else.
    ensures faults { ReportsFaults result
        (R.failure_count reader.old) (R.failure_count reader.new)
        (R.spent_count reader.old) (R.spent_count reader.new)
        (W.failure_count writer.old) (W.failure_count writer.new) }
{
    let failures = reader.failures();
    let spent = reader.spent();
    let mut answers = Answers::new(alloc);
    let mut rows = Rows::new(alloc, reader);
    let answer = run_rows(observer, scale, &mut answers, &mut rows, writer);
    rows.report(alloc, reported);
    drop(rows);
    let has_failed = reader.failures() > failures;
    match end_rows(observer, answer, has_failed, writer) {
        Ok(count) => Ok(count),
        Err(fault) => Err(classify(fault, reader, failures, spent)),
    }
}
