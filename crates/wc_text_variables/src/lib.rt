//! What the name of a variable means in a program that is loaded: the place of its value, and the value's kind.
#![tactic(auto)]

mod variables;

pub use variables::{NamedVariable, variable_named};
