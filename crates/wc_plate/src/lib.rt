//! The plate of an instrument: a TOML text with seven keys, read and checked by the rules for a class
//! III instrument with a single range (OIML R 76-1:2006).
#![tactic(auto)]

mod broken;
mod kept;
mod keys;
mod reading;
mod validation;

pub use broken::BrokenRule;
pub use kept::Plate;
pub use reading::{plate, plate_of};
pub use validation::allows_interval;
