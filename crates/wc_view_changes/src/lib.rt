//! What a change of the program keeps, reported before it is made: a line for each variable of the new program, and for
//! each of the old one that is lost; and a note on each that keeps its value though its first one is another.
#![tactic(auto)]

mod describing;
mod lines;
mod report;
mod shape;

pub use lines::{put_literal, put_value};
pub use report::{changes, notes};
