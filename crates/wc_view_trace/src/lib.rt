//! A run whose scans are shown item by item: for people as rows in columns, for programs as JSON, an object a line for each scan.
//! Of each item that a chosen scan executes it gives the line of the text, the result after it and what it wrote.
#![tactic(auto)]

mod image;
mod items;
mod members;
mod scans;
mod tracer;
mod tracing;

pub use scans::{put_end_object, put_object};
pub use tracing::{ScanFilter, TraceFormat, trace_files};
