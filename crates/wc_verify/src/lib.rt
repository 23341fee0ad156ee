//! The rules on bodies: names, kinds, places that may be read and written, labels and calls (401 to 410).
#![tactic(auto)]

mod bodies;
mod calls;
mod checked;
mod edges;
mod inside;
mod instructions;
mod jumps;
mod labels;
mod refusals;
mod seen;
mod steps;
mod verifying;

pub use calls::validate_argument;
pub use checked::Checked;
pub use verifying::{validate_bodies, verify};
