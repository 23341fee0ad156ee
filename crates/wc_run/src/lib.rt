//! A run of a log: its rows go to the indicator, the line and the machine, and whoever observes the run writes of them.
#![tactic(auto)]

mod change_fault;
mod changing;
mod fault;
mod last_scans;
mod laws;
mod log_rows;
mod log_scale;
mod observer;
mod open_scale;
mod preludes;
mod program;
mod report;
mod row_seen;
mod running;
mod scanning;
mod tracing;

pub use change_fault::ChangeFault;
pub use fault::RunFault;
pub use last_scans::LastScans;
pub use log_scale::LogScale;
pub use observer::Observer;
pub use open_scale::OpenScale;
pub use preludes::Prelude;
pub use program::Program;
pub use report::{Report, put_answer, put_record, write_text};
pub use row_seen::{RowSeen, ScanSeen};
pub use running::{classify, run};
pub use wc_record::RefusedRow;
