//! The length of each unit's longest path, over its lowered body, and the worst path (411).
#![tactic(auto)]

mod arguments;
mod body;
mod calls;
mod flat;
mod inside;
mod labels;
mod loaded;
mod operands;
mod path_lengths;
mod steps;
mod units;

pub use loaded::Loaded;
pub use units::{cost, measure};
