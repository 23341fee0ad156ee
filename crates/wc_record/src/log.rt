ghost use Rattle.std.specs.Prelude.{◌≡◌, ◌∷◌, [], suc, max, List, Some, None, true, false, IfErr, IfSome, OnOk, IsErrOf};
ghost use Rattle.csv.specs.Records.{fields_of};
ghost use Rattle.wc_model.specs.Run.Log.{Record, LogOf, log_of};
ghost use Rattle.wc_record.specs.Left.{GivesHead, GivesNext, IsCause, HasCauseIn, HasCauseSince, HasLeft, IsAfterRecords, Takes, bounded_from, count_in, ended, last_ms, row_bytes, rows_read, started_at};
ghost use Rattle.wc_record.specs.Left as left;
ghost use Rattle.wc_record.specs.Reading.{records_of};
ghost use Rattle.wc_record.specs.Steps.{GivesLeft, GivesRecord, IsAfterFirst, Keeps, RefusesAt, Steps};
ghost use Rattle.wc_record.specs.Reported.{Reads, current_record, fields_reported, records_read};
ghost use Rattle.wc_record.specs.Views.{head_view, row_view};

use crate::bounded::{LimitedReader, is_exhausted};
use crate::records::Records;
use crate::refused_row::RefusedRow;
use crate::row_data::{RowFault, is_first_row, row_in};
use crate::row_head::{RowHead, owned_row};
use crate::row_kind::{LogFault, Row};
use csv::ByteRecord;
use memchr::memchr_iter;
use std::alloc::Global;
use std::mem::replace;
use wc_model::{ByteIn, MOST_ROWS};

/// Capacity for the bytes of a record: as many as `csv` takes from its reader at once.
const RECORD_CAPACITY: usize = 8192;

/// Capacity for the ends of its fields, three and one that is too many.
const ENDS_CAPACITY: usize = 4;

/// A record to read into. `csv` takes no more bytes at once than it has space for, so with less
/// space than its line has bytes each record would be taken in two chunks. `Memory` is the only
/// fault.
#[cold]
#[inline(never)]
fn buffer_record(alloc: Global) -> Result<ByteRecord, LogFault>
    ensures memory { IfErr result (λ raised. raised ≡ LogFault.Memory) }
{
    ByteRecord::with_capacity(alloc, RECORD_CAPACITY, ENDS_CAPACITY)
        .ok()
        .ok_or(LogFault::Memory)
}

/// How a log ended.
#[derive(Clone, Copy, PartialEq, Eq)]
pub(crate) enum LogEnd {
    /// No row is left.
    AllRead,
    Raised(LogFault),
}

/// What each further call answers.
#[inline(always)]
fn answer_at(end: LogEnd) -> Result<Option<RowHead>, LogFault>
    ensures { result ≡ left.answer_at end }
{
    match end {
        LogEnd::AllRead => Ok(None),
        LogEnd::Raised(fault) => Err(fault),
    }
}

/// How the log has ended, if that answer ends it.
#[inline(always)]
fn end_after(answer: &Result<Option<RowHead>, LogFault>) -> Option<LogEnd>
    ensures { result ≡ left.end_after answer.now }
{
    match answer {
        Ok(Some(_)) => None,
        Ok(None) => Some(LogEnd::AllRead),
        Err(fault) => Some(LogEnd::Raised(*fault)),
    }
}

/// The rows of a log of CSV records, read one at a time from a reader that is borrowed. The records
/// are those that `csv` reads: without a byte order mark, of any number of fields, and blank lines
/// are not records.
#[derive(Drop)]
pub struct Rows<'r, R> {
    alloc: Global,
    records: Records<'r, R>,
    row: ByteRecord,
    buffer: Vec<u8>,
    start: u64,
    number: u32,
    last: u64,
    end: Option<LogEnd>,
}

impl<'r, R: ByteIn> Rows<'r, R> {
    /// The rows of the log that the reader has to give. Nothing is read, and no memory is taken,
    /// before the first `next`.
    pub fn new(alloc: Global, reader: &'r mut R) -> Rows<'r, R>
        ensures rows { IfSome (R.bytes_left reader.old)
            (λ bytes. HasLeft R.bytes_left result (log_of (records_of bytes))) }
        ensures records { IfSome (R.bytes_left reader.old)
            (λ bytes. Reads R.bytes_left result (records_read bytes)) }
        ensures fresh { (rows_read result ≡ 0) × (last_ms result ≡ 0) × (ended result ≡ None) }
        ensures start { started_at result ≡ R.spent_count reader.old }
        ensures bounded { bounded_from result ≡ R.spent_count reader.old }
        ensures failures { count_in R.failure_count result ≡ R.failure_count reader.old }
        ensures spent { count_in R.spent_count result ≡ R.spent_count reader.old }
    {
        let start = reader.spent();
        Rows {
            alloc,
            records: Records::new(alloc, LimitedReader::new(reader, start)),
            row: ByteRecord::new(alloc),
            buffer: Vec::new(alloc),
            start,
            number: 0,
            last: 0,
            end: None,
        }
    }

    /// Whether a read that failed has its cause in the reader: it failed in this call, or as much was
    /// read as may be.
    #[cold]
    #[inline(never)]
    fn has_cause(&self, failures_before: u64) -> bool
        ensures yes { result ≡ true
            → HasCauseIn R.failure_count R.spent_count failures_before self.now }
        ensures no { result ≡ false
            → ¬ HasCauseIn R.failure_count R.spent_count failures_before self.now }
    {
        let failures = self.records.failures();
        failures > failures_before
            || failures == u64::MAX
            || is_exhausted(self.start, self.records.spent())
    }

    /// The cause of a read that failed: the reader's if there is one there, else memory.
    #[inline(always)]
    fn cause(&self, failures_before: u64) -> LogFault
        ensures { IsCause R.failure_count R.spent_count failures_before self.now result }
    {
        if self.has_cause(failures_before) {
            LogFault::Read
        } else {
            LogFault::Memory
        }
    }

    /// Reads the first row, which is not a row of the log.
    #[cold]
    #[inline(never)]
    fn first_row(&mut self) -> Result<(), LogFault>
        ensures first { OnOk result
            ((left : List Record) → IsAfterRecords R.bytes_left self.old [] left
            → IsAfterFirst R.bytes_left self.new left) }
        ensures refused { IfErr result
            (λ raised. (left : List Record) → IsAfterRecords R.bytes_left self.old [] left
            → RefusesAt raised [] left self.new) }
        ensures no_device { IfErr result (λ raised. raised ≡ LogFault.Read → ⊥) }
        ensures counted { OnOk result
            ((rows_read self.new ≡ 1) × (last_ms self.new ≡ last_ms self.old)) }
        ensures keeps { Keeps self.old self.new }
    {
        self.row = buffer_record(self.alloc)?;
        // `Memory` represents whatever kept it from being read.
        match self.records.read(&mut self.row) {
            Ok(found) => {
                if found && is_first_row(&self.row) {
                    self.number = 1;
                    return Ok(());
                }
                if !found {
                    self.row.clear();
                }
                Err(LogFault::Refused {
                    number: 601,
                    place: 1,
                })
            }
            Err(_) => Err(LogFault::Memory),
        }
    }

    /// The row that the record writes.
    #[inline(always)]
    fn row_of_record(&mut self) -> Result<Option<RowHead>, LogFault>
        ensures gives { (first : Record) (before rest : List Record)
            → IsAfterRecords R.bytes_left self.old (first ∷ before) rest
            → GivesRecord R.bytes_left (first ∷ before) (fields_of self.old.row ∷ rest)
            result self.new }
        ensures steps { Steps (suc (rows_read self.old)) self.old result self.new }
    {
        if self.number >= MOST_ROWS {
            return Err(LogFault::Refused {
                number: 607,
                place: self.number.saturating_add(1),
            });
        }
        let number = self.number + 1;
        match row_in(&mut self.buffer, &self.row, number, self.last) {
            Ok(row) => {
                self.number = number;
                self.last = row.ms;
                Ok(Some(row))
            }
            Err(RowFault::Refused(rule)) => Err(LogFault::Refused {
                number: rule,
                place: number,
            }),
            Err(RowFault::Memory) => Err(LogFault::Memory),
        }
    }

    /// The next row after the first.
    #[inline(always)]
    fn later_row(&mut self) -> Result<Option<RowHead>, LogFault>
        ensures gives { (first : Record) (before left : List Record)
            → IsAfterRecords R.bytes_left self.old (first ∷ before) left
            → GivesRecord R.bytes_left (first ∷ before) left result self.new }
        ensures steps { Steps (suc (rows_read self.old)) self.old result self.new }
    {
        match self.records.read(&mut self.row) {
            Ok(true) => self.row_of_record(),
            Ok(false) => Ok(None),
            Err(_) => Err(LogFault::Memory),
        }
    }

    /// The next row, if no row was read yet. It is separate, so that a later row clears no space for
    /// the answer of the first.
    #[inline(always)]
    fn row_after_heading(&mut self) -> Result<Option<RowHead>, LogFault>
        requires { rows_read self.old ≡ 0 }
        ensures gives { GivesLeft R.bytes_left self.old result self.new }
        ensures steps { Steps (suc (max 1 (rows_read self.old))) self.old result self.new }
    {
        match self.first_row() {
            Ok(()) => self.later_row(),
            Err(fault) => Err(fault),
        }
    }

    /// The next row, if nothing has ended the log.
    #[inline(always)]
    fn next_row(&mut self) -> Result<Option<RowHead>, LogFault>
        ensures gives { GivesLeft R.bytes_left self.old result self.new }
        ensures steps { Steps (suc (max 1 (rows_read self.old))) self.old result self.new }
    {
        if self.number == 0 {
            self.row_after_heading()
        } else {
            self.later_row()
        }
    }

    /// The next row, if nothing has ended the log, with the cause of what kept a record from
    /// being read.
    #[inline(always)]
    fn row_or_cause(&mut self) -> Result<Option<RowHead>, LogFault>
        ensures gives { GivesLeft R.bytes_left self.old result self.new }
        ensures row { GivesHead (suc (max 1 (rows_read self.old))) self.old result self.new }
        ensures cause { IsErrOf result LogFault.Read
            → HasCauseSince R.failure_count R.spent_count self.old self.new }
        ensures memory { IsErrOf result LogFault.Memory
            → ¬ HasCauseSince R.failure_count R.spent_count self.old self.new }
        ensures keeps { Keeps self.old self.new }
    {
        let failures_before = self.records.failures();
        match self.next_row() {
            Ok(given) => Ok(given),
            Err(fault) => match fault {
                LogFault::Refused { number, place } => Err(LogFault::Refused { number, place }),
                _ => Err(self.cause(failures_before)),
            },
        }
    }

    /// The head of the next row after the first, or `None` if no row is left; `bytes` borrows what
    /// a row of bytes brings. `Refused` names the first rule that is broken, 601 to 608, and its
    /// row. `Read` comes only if the reader failed in this call or its count of failures is at its
    /// end, or if as much was read as may be: 134217728 bytes and calls since `new`. `Memory` comes
    /// if an allocation failed, or a read, without such a cause. After `None` or a fault each call
    /// of this and of `next` answers the same again and reads nothing.
    #[inline(always)]
    pub fn next_head(&mut self) -> Result<Option<RowHead>, LogFault>
        ensures takes { (log : LogOf) → HasLeft R.bytes_left self.old log
            → Takes (head_view (row_bytes self.new)) R.bytes_left log result self.new }
        ensures records { (records : List Record) → Reads R.bytes_left self.old records
            → Reads R.bytes_left self.new records }
        ensures row { GivesHead (suc (max 1 (rows_read self.old))) self.old result self.new }
        ensures ends { ended self.new ≡ left.end_after result }
        ensures again { IfSome (ended self.old)
            (λ end. (result ≡ left.answer_at end) × (self.new ≡ self.old)) }
        ensures cause { ended self.old ≡ None → IsErrOf result LogFault.Read
            → HasCauseSince R.failure_count R.spent_count self.old self.new }
        // A fault of the reader, or the limit that was reached, is not reported as out of memory.
        ensures memory { ended self.old ≡ None → IsErrOf result LogFault.Memory
            → ¬ HasCauseSince R.failure_count R.spent_count self.old self.new }
        ensures start { started_at self.new ≡ started_at self.old }
    {
        match self.end {
            Some(end) => answer_at(end),
            None => {
                let answer = self.row_or_cause();
                if let Some(end) = end_after(&answer) {
                    self.end = Some(end);
                }
                answer
            }
        }
    }

    /// Ends the log because a row could not be copied: with the cause in the reader if there is
    /// one, else out of memory.
    #[cold]
    #[inline(never)]
    fn end_uncopied(&mut self, failures_before: u64) -> LogFault
        ensures cause { IsCause R.failure_count R.spent_count failures_before self.new result }
        ensures ends { self.new ≡ record self.old { end = Some (LogEnd.Raised result) } }
    {
        let fault = self.cause(failures_before);
        self.end = Some(LogEnd::Raised(fault));
        fault
    }

    /// The next row after the first, with its bytes, or `None` if no row is left. The faults are
    /// those of `next_head`; `Memory` comes also if the bytes could not be copied, and then that
    /// row is lost and the log has ended. Only a `Bytes` row takes memory to be copied. After
    /// `None` or a fault each call of this and of `next_head` answers the same again and reads
    /// nothing.
    pub fn next(&mut self) -> Result<Option<Row>, LogFault>
        ensures takes { (log : LogOf) → HasLeft R.bytes_left self.old log
            → Takes row_view R.bytes_left log result self.new }
        ensures records { (records : List Record) → Reads R.bytes_left self.old records
            → Reads R.bytes_left self.new records }
        ensures row { GivesNext row_view (suc (max 1 (rows_read self.old))) self.old result
            self.new }
        ensures ends { ended self.new ≡ left.end_after result }
        ensures again { IfSome (ended self.old)
            (λ end. (result ≡ left.answer_at end) × (self.new ≡ self.old)) }
        ensures cause { ended self.old ≡ None → IsErrOf result LogFault.Read
            → HasCauseSince R.failure_count R.spent_count self.old self.new }
        // A fault of the reader, or the limit that was reached, is not reported as out of memory.
        ensures memory { ended self.old ≡ None → IsErrOf result LogFault.Memory
            → ¬ HasCauseSince R.failure_count R.spent_count self.old self.new }
        ensures start { started_at self.new ≡ started_at self.old }
    {
        let failures_before = self.records.failures();
        match self.next_head() {
            Ok(given) => match given {
                Some(head) => match owned_row(self.alloc, head, self.bytes()) {
                    Ok(row) => Ok(Some(row)),
                    Err(_) => Err(self.end_uncopied(failures_before)),
                },
                None => Ok(None),
            },
            Err(fault) => Err(fault),
        }
    }

    /// The bytes that the last row brought, if it is one of bytes. They are borrowed until the next
    /// row is read.
    #[inline(always)]
    pub fn bytes(&self) -> &[u8]
        ensures { result.now ≡ row_bytes self.now }
    {
        self.buffer.as_slice()
    }

    /// The line of the log on which the row that was read last starts, counted from 1.
    fn line(&self) -> u32 {
        let feeds = memchr_iter(b'\n', self.row.as_slice()).count();
        let line = self.records.line().saturating_sub(feeds as u64);
        line.clamp(1, u32::MAX as u64) as u32
    }

    /// Reports the row that was read last, which is the one that a refusal names. It takes no memory, and after it the
    /// rows are not read on.
    #[cold]
    #[inline(never)]
    pub fn report(&mut self, alloc: Global, reported: &mut RefusedRow)
        ensures { fields_reported reported.new ≡ current_record self.old }
    {
        reported.line = self.line();
        reported.row = replace(&mut self.row, ByteRecord::new(alloc));
    }
}
