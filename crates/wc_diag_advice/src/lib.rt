//! What to write instead of what is refused, with words that the text or the language has: a name, label, type or operator
//! that is spelled almost so, and what a block has.
#![tactic(auto)]

mod advice;
mod members;

pub use advice::{advice_at, watched_advice};
