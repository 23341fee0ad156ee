use thiserror::Error;

/// How a report is rewritten.
#[derive(Clone, Copy, PartialEq, Eq)]
pub enum DecodeFormat {
    /// A line for people.
    Text,
    /// A row of a table, as `csv` files have them.
    Table,
}

/// Why a report was not decoded to its end.
#[derive(Clone, Copy, PartialEq, Eq, Debug, Error)]
pub enum DecodeFault {
    /// A read failed, or as much was read as may be.
    #[error("read fault")]
    Read,
    /// A write failed, or took nothing.
    #[error("write fault")]
    Write,
    #[error("out of memory")]
    Memory,
}
