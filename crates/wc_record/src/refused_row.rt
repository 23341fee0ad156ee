ghost use Rattle.std.specs.Prelude.{◌≡◌, [], length, option_map};
ghost use Rattle.csv.specs.Records.{field_at};
ghost use Rattle.wc_record.specs.Reported.{fields_reported};

use csv::ByteRecord;
use std::alloc::Global;

/// The row of a log that was read last, as it is reported if it is refused.
#[derive(Drop)]
pub struct RefusedRow {
    pub(crate) row: ByteRecord,
    pub(crate) line: u32,
}

impl RefusedRow {
    /// No row. It takes no memory.
    pub fn new(alloc: Global) -> RefusedRow
        ensures { fields_reported result ≡ [] }
    {
        RefusedRow {
            row: ByteRecord::new(alloc),
            line: 0,
        }
    }

    /// The line of the log on which its first field starts, counted from 1; 0 if there is no row.
    pub fn line(&self) -> u32 {
        self.line
    }

    /// The number of fields it has.
    pub fn len(&self) -> usize
        ensures { result ≡ length (fields_reported self.now) }
    {
        self.row.len()
    }

    /// The field at a place, counted from 0.
    pub fn field(&self, place: usize) -> Option<&[u8]>
        ensures { option_map (λ field. field.now) result
            ≡ field_at (fields_reported self.now) place }
    {
        self.row.get(place)
    }
}
