//! A log is cut: the rows before the cut are left out, and in their place are the few rows that
//! bring a new scale to the state that they left.
#![tactic(auto)]

mod cutter;
mod cutting;
mod rows;

pub use cutting::{TooManyRows, cut_files, cut_logs_go_on};
