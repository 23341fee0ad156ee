//! The tokens of a program text in Instruction List.
#![tactic(auto)]

mod characters;
mod durations;
mod element;
mod lengths;
mod numbers;
mod plain_numbers;
mod prefixes;
mod shape;
mod shapes;
mod spaces;
mod stop;
mod text;

pub use shape::{Shape, Token};
pub use stop::Stop;
pub use text::{tokens, tokens_or_stop};
