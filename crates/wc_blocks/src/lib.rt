//! The standard function blocks as plain fields with one call each (IEC 61131-3:2003, 2.5.2.3).
#![tactic(auto)]

mod ctu;
mod elapsed;
mod r_trig;
mod rs;
mod sr;
mod tof;
mod ton;
mod tp;

pub use ctu::Ctu;
pub use r_trig::RTrig;
pub use rs::Rs;
pub use sr::Sr;
pub use tof::Tof;
pub use ton::Ton;
pub use tp::Tp;
