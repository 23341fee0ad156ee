//! What identifies this version: its number, its toolchain and the digests of its sources.
#![tactic(auto)]

mod constants;
mod identity;

pub use constants::{DATA_PATH, LEGAL_PART, TOOLCHAIN, VERSION, VERSION_TEXT};
pub use identity::{Identity, identify};
