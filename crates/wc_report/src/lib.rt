//! The texts that a run, a check and a refusal print, line by line.
#![tactic(auto)]

mod backward;
mod lines;
mod numbers;

pub use lines::{path_line, put_answer_line, put_scan_line, refused_line, unit_line};
pub use numbers::{put_hex, put_number, put_signed};
