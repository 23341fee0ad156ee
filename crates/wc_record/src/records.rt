ghost use Rattle.std.specs.Prelude.{◌≡◌, ℕ, List, Some, true, false, IfOk};
ghost use Rattle.csv.specs.Records.{fields_of};
ghost use Rattle.csv.specs.Reading.{reader_source};
ghost use Rattle.wc_record.specs.Reading.{HasRecords, TakesFirst, borrowed, borrowed_bytes, records_of};

use crate::bounded::LimitedReader;
use csv::{ByteRecord, Reader, ReaderBuilder};
use std::alloc::Global;
use wc_model::ByteIn;

/// No record was read: the reader answered an error, or memory was refused.
#[derive(Drop)]
pub(crate) struct Unread;

/// The records of a log, one after the other.
#[derive(Drop)]
pub(crate) struct Records<'r, R> {
    csv: Reader<LimitedReader<'r, R>>,
}

impl<'r, R: ByteIn> Records<'r, R> {
    /// The records that the reader has to give: no header, of any number of fields, which keep
    /// their blanks.
    pub(crate) fn new(alloc: Global, bounded: LimitedReader<'r, R>) -> Records<'r, R>
        ensures records { (bytes : List ℕ) → borrowed_bytes R.bytes_left bounded.entry ≡ Some bytes
            → HasRecords R.bytes_left result (records_of bytes) }
        ensures borrowed { borrowed (reader_source result.csv) ≡ borrowed bounded.entry }
        // The bound on what is read is measured from the same count, and the cut from the same
        // place.
        ensures whole { reader_source result.csv ≡ bounded.entry }
    {
        Records {
            csv: ReaderBuilder::new()
                .has_headers(false)
                .flexible(true)
                .from_reader(alloc, bounded),
        }
    }

    /// Reads the next record into `row`, if there is one.
    #[inline(never)]
    pub(crate) fn read(&mut self, row: &mut ByteRecord) -> Result<bool, Unread>
        ensures { IfOk result
            (λ found.
            TakesFirst (HasRecords R.bytes_left self.old) (HasRecords R.bytes_left self.new) found
            (fields_of row.new)) }
    {
        match self.csv.read_byte_record(row) {
            Ok(found) => return Ok(found),
            Err(_) => {}
        }
        Err(Unread)
    }

    /// The number of calls of the reader that failed.
    #[inline(always)]
    pub(crate) fn failures(&self) -> u64
        ensures { result ≡ R.failure_count (borrowed (reader_source self.now.csv)) }
    {
        self.csv.get_ref().reader.failures()
    }

    /// What the reader has given, and its calls.
    #[inline(always)]
    pub(crate) fn spent(&self) -> u64
        ensures { result ≡ R.spent_count (borrowed (reader_source self.now.csv)) }
    {
        self.csv.get_ref().reader.spent()
    }

    /// The line on which the last record ends, counted from 1. `csv` counts the line feeds that it has passed, and it passes
    /// that which ends a record, but not one after a CR.
    pub(crate) fn line(&self) -> u64 {
        let position = self.csv.position();
        if self.csv.get_ref().ends_line(position.byte) {
            position.line.saturating_sub(1)
        } else {
            position.line
        }
    }
}
