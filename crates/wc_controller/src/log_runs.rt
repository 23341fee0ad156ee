ghost use Rattle.std.specs.Prelude.{◌≡◌, ◌≤◌, Option, Some, None, IfSome};
ghost use Rattle.wc_model.specs.Definitions.{log_of, log_for, Logic};
ghost use Rattle.wc_record.specs.{records_of};
ghost use Rattle.wc_run.specs.Logics.{IsAt};
ghost use Rattle.wc_run.specs.Runs.{LeavesLine, Reports, ReportsFaults};

use std::alloc::Global;
use wc_cost::Loaded;
use wc_machine::Machine;
use wc_model::{ByteIn, ByteOut};
use wc_plate::Plate;
use wc_record::RefusedRow;
use wc_run::{LastScans, LogScale, Report, RunFault, classify};
use wc_store::Store;

/// Runs a log and writes its report, with a line for every scan. Each row is read and carried out,
/// and its line is written, before the next row is read. A run takes no more memory for more rows.
///
/// - `plate` is the plate of the scale. The scale starts with no sample, zero or tare.
/// - `machine` does the scans: a machine as `Machine::new` makes it, which has run no scan. With
///   `None` only the answers of the line are written.
/// - `next` is the program that a row of kind `P` changes to. A log may change it once; a second such
///   row, or the first if there is no next program, is refused as 609. With no machine such rows have
///   no effect.
/// - `reader` gives the bytes of the log: CSV rows of a time in milliseconds (0 to 1099511627775), a
///   kind and data. At most 1000000 rows are read, the heading included.
/// - `writer` takes the bytes of the report.
///
/// `Ok` is the number of rows after the first row, which is the heading. Every row was carried out
/// and the whole report was written.
///
/// # Errors
///
/// - `Refused`: the first row that breaks a rule, by the number of the rule and the number of the row,
///   counted from 1. The report of the rows before it was written.
/// - `Read`: the reader failed in this call, its count of failures is at its largest value, or what
///   was read in this call reached 134217728, bytes and calls counted together. The report of some
///   rows, from the first on, was written.
/// - `Write`: the writer failed in this call. A prefix of the report was written.
/// - `Memory`: an allocation failed, or a read failed without such a cause. The report of some rows,
///   from the first on, was written.
pub fn run<'a, S: Store, R: ByteIn, W: ByteOut>(
    alloc: Global,
    plate: &Plate,
    machine: Option<Machine<'a, S>>,
    next: Option<Loaded<'a>>,
    reader: &mut R,
    writer: &mut W,
) -> Result<u32, RunFault>
    requires first { IfSome machine (λ m. m.last ≡ 0) }
    ensures reports { IfSome (R.bytes_left reader.old)
        (λ bytes. (logic : Option Logic) → IsAt machine.entry next.entry logic
        → Reports None plate.now logic (log_for logic (log_of (records_of bytes))) result
        (W.bytes_taken writer.old) (W.bytes_taken writer.new)) }
    // Whatever the program: without the lines of scans the bytes are those of a run with none.
    ensures line { IfSome (R.bytes_left reader.old)
        (λ bytes. (logic : Option Logic) → IsAt machine.entry next.entry logic
        → LeavesLine plate.now (log_for logic (log_of (records_of bytes))) result
        (W.bytes_taken writer.old) (W.bytes_taken writer.new)) }
    // A failed reader, or the limit on what is read, is not reported as out of memory, nor a writer
    // that failed as anything else.
    ensures faults { ReportsFaults result
        (R.failure_count reader.old) (R.failure_count reader.new)
        (R.spent_count reader.old) (R.spent_count reader.new)
        (W.failure_count writer.old) (W.failure_count writer.new) }
{
    let mut text = Report::new(alloc);
    let mut reported = RefusedRow::new(alloc);
    match LogScale::new(alloc, plate, machine, next) {
        Ok(mut scale) => wc_run::run(alloc, &mut text, &mut scale, reader, writer, &mut reported),
        // If the reader has failed already as often as can be counted, that is reported.
        Err(fault) => Err(classify(fault, reader, reader.failures(), reader.spent())),
    }
}

/// Runs a log as `run` does, and of the lines of scans writes only those of the last `last` scans, 1
/// to 1000. The answers of the line are written as their rows are carried out. The lines of those
/// scans follow in order, after the last row or after the last one before a refused row. Until then
/// each scan is kept as a record, so a run takes no more memory for more rows.
///
/// # Errors
///
/// As those of `run`; what was written then differs:
///
/// - `Refused`: the answers to the rows before the refused one, and the lines of the last scans among
///   those rows.
/// - `Read`, `Memory`: only the answers to some rows, from the first on.
/// - `Write`: a prefix of the answers to all rows and the lines of the last scans.
pub fn run_last<'a, S: Store, R: ByteIn, W: ByteOut>(
    alloc: Global,
    last: u16,
    plate: &Plate,
    machine: Option<Machine<'a, S>>,
    next: Option<Loaded<'a>>,
    reader: &mut R,
    writer: &mut W,
) -> Result<u32, RunFault>
    requires few { (1 ≤ last) × (last ≤ 1000) }
    requires first { IfSome machine (λ m. m.last ≡ 0) }
    ensures reports { IfSome (R.bytes_left reader.old)
        (λ bytes. (logic : Option Logic) → IsAt machine.entry next.entry logic
        → Reports (Some last) plate.now logic (log_for logic (log_of (records_of bytes))) result
        (W.bytes_taken writer.old) (W.bytes_taken writer.new)) }
    // Whatever the program: without the lines of scans the bytes are those of a run with none.
    ensures line { IfSome (R.bytes_left reader.old)
        (λ bytes. (logic : Option Logic) → IsAt machine.entry next.entry logic
        → LeavesLine plate.now (log_for logic (log_of (records_of bytes))) result
        (W.bytes_taken writer.old) (W.bytes_taken writer.new)) }
    // A failed reader, or the limit on what is read, is not reported as out of memory, nor a writer
    // that failed as anything else.
    ensures faults { ReportsFaults result
        (R.failure_count reader.old) (R.failure_count reader.new)
        (R.spent_count reader.old) (R.spent_count reader.new)
        (W.failure_count writer.old) (W.failure_count writer.new) }
{
    let mut scans = match LastScans::new(alloc, last) {
        Ok(scans) => scans,
        Err(fault) => return Err(classify(fault, reader, reader.failures(), reader.spent())),
    };
    let mut reported = RefusedRow::new(alloc);
    match LogScale::new(alloc, plate, machine, next) {
        Ok(mut scale) => wc_run::run(alloc, &mut scans, &mut scale, reader, writer, &mut reported),
        Err(fault) => Err(classify(fault, reader, reader.failures(), reader.spent())),
    }
}
