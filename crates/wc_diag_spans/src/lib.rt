//! What exactly is wrong with what is refused, as whoever refused it reports: of a program's text its passes, of a plate its
//! rules, of a log the row. The line of a plate that gives a value to a key is searched for: if that is not sure, none is
//! shown.
#![tactic(auto)]

mod diagnostic;
mod lines;
mod plates;
mod programs;
mod refusal;
mod rows;
mod searching;

pub use diagnostic::{Diagnostic, Span};
pub use lines::{column_at, line_at};
pub use refusal::{Evidence, RefusalDetails};
pub use searching::find;
