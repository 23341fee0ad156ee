//! What is suspicious of a program text that the verifier accepts: variables, instances and outputs that do nothing, lines
//! that no run reaches, outputs that are stored twice, weights that nobody asks about.
#![tactic(auto)]

mod addresses;
mod body;
mod declared;
mod diagnostic;
mod edges;
mod events;
mod laws;
mod used;
mod warning;

pub use diagnostic::find_warnings;
pub use laws::{each_declared_warning_is_so, each_event_warning_is_so, edges_are_there};
pub use warning::Warning;
