//! The log of a run, row by row, what a scan sees of the rows so far, and the records of the last
//! scans.
#![tactic(auto)]

mod bounded;
mod last_scans;
mod log;
mod numbers;
mod place;
mod process_image;
mod records;
mod refused_row;
mod row_data;
mod row_head;
mod row_kind;

pub use bounded::is_exhausted;
pub use last_scans::{Record, Recorder};
pub use log::Rows;
pub use process_image::image;
pub use refused_row::RefusedRow;
pub use row_head::{HeadKind, RowHead};
pub use row_kind::{LogFault, Row, RowKind};
