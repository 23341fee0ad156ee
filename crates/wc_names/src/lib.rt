//! Names of a text and what they represent, by numbers: the tables of its units, the places of their frames, and what
//! the slots of a frame hold at first.
#![tactic(auto)]

mod carry;
mod declared_type;
mod entity;
mod field;
mod finished;
mod formal;
mod frame;
mod kept;
mod key;
mod located;
mod lookup;
mod member;
mod names;
mod naming;
mod unit_table;
mod variable;

pub use declared_type::DeclaredType;
pub use entity::Entity;
pub use field::Field;
pub use formal::FormalSlot;
pub use frame::Frame;
pub use kept::Tables;
pub use key::Key;
pub use located::VariablePlace;
pub use names::Names;
pub use unit_table::UnitTable;
pub use variable::Variable;
