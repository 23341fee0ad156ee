//! The indication of a class III instrument with a single range (OIML R 76-1:2006): what a plate, the samples
//! of a sensor and the commands come to. The contracts say it of all that has come so far; the code keeps a ring and
//! three numbers.
#![tactic(auto)]

mod commands;
mod indicator;
mod refused;
mod rounding;
mod spread;
mod state;

pub use indicator::Indicator;
pub use refused::Refused;
