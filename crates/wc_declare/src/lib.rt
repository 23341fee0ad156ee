//! The rules on names, types, initial values, addresses and frames (301 to 308), and the tables of a text that breaks none.
#![tactic(auto)]

mod body;
mod capacity;
mod declaration;
mod declaring;
mod types;
mod unit;

pub use declaring::tables;
pub use wc_names::{
    DeclaredType, Entity, Field, FormalSlot, Frame, Key, Names, Tables, VariablePlace,
};
