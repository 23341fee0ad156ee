//! The machine that runs a text scan by scan: flat code over a store of plain numbers.
#![tactic(auto)]

mod body;
mod executable;
mod line;
mod machine;
mod own_line;
mod pairs;
mod seen;
mod stores;

pub use machine::Machine;
pub use seen::SeenLine;
