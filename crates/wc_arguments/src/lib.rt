//! The arguments of the command line: what they ask the program for, and which of them are refused.
#![tactic(auto)]

mod formats;
mod invocation;
mod scan_choice;
mod table;
mod title;

pub use formats::plain_formats;
pub use invocation::{AskedCommand, Invocation, ProgramFiles, read_arguments};
pub use scan_choice::ScanChoice;
