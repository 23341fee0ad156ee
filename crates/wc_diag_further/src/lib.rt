//! What else is wrong with a program or a plate that is refused: the refusals of the same text without what was refused before, one
//! after the other, but for those that may only follow from what is missing. Which those are, is tested.
#![tactic(auto)]

mod blanks;
mod extents;
mod following;
mod further;
mod logical_lines;
mod marks;
mod plates;

pub use further::{Found, Further, LineFault};
