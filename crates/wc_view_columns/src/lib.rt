//! What a log comes to over time, in a fixed number of columns: for each the least and the greatest weight, what held in it and
//! what happened in it.
#![tactic(auto)]

mod bits;
mod events;
mod lanes;
mod line;
mod span;
mod state;
mod time_line;

pub use bits::{Bits, Level};
pub use events::{Events, Request, Tracker};
pub use lanes::{Lane, lanes_of, whole};
pub use line::{COLUMNS, Column, TimeLine};
pub use span::{NumberSpan, join};
pub use state::State;
