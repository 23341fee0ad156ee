use thiserror::Error;

/// A row of a log. It owns its bytes.
#[derive(Drop)]
pub struct Row {
    /// Its number; that of the first row, `ms,kind,data`, is 1. At most 1000000.
    pub number: u32,
    /// Its moment in milliseconds, below 2^40 and not before that of the row before it.
    pub ms: u64,
    pub kind: RowKind,
}

/// What a row of a log brings.
#[derive(Drop)]
pub enum RowKind {
    /// A sample of the sensor, -8388608..8388607.
    Counts(i32),
    /// Bytes on the line, at most 4096.
    Bytes(Vec<u8>),
    /// The inputs from now on; bit i is `%IX0.i`.
    Inputs(u16),
    Scan,
    /// A change to the next program.
    Change,
}

/// Why a log gives no further row.
#[derive(Clone, Copy, PartialEq, Eq, Debug, Error)]
pub enum LogFault {
    /// A row breaks a rule.
    #[error("refused {number} {place}")]
    Refused {
        /// The number of the rule, 601 to 608.
        number: u16,
        /// The number of the row.
        place: u32,
    },
    /// The reader failed, or as much was read as may be.
    #[error("read fault")]
    Read,
    #[error("out of memory")]
    Memory,
}
