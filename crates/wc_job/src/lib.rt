//! What the program reads before it runs: a job's bytes, and its sections in them.
#![tactic(auto)]

mod cutting;
mod input;
mod parts;
mod reading;

pub use cutting::sections;
pub use input::Input;
pub use parts::Sections;
pub use reading::{ReadFault, read_whole};
