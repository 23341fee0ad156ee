//! Stores of a frame's numbers: by place with their kinds, and as plain numbers.
#![tactic(auto)]

mod named_store;
mod slot_store;
mod store;

pub use named_store::NamedStore;
pub use slot_store::SlotStore;
pub use store::Store;
