//! The controller for a maker's own program in C: each function is called from C by its name, and does one call of a
//! scale. The memory at a pointer is the caller's; it is borrowed for the call and comes back.
#![tactic(auto)]

mod changes;
mod identifying;
mod making;
mod programs;
mod readings;
mod rows;

pub use changes::{narbeddo_change, narbeddo_close, narbeddo_load, narbeddo_open};
pub use identifying::narbeddo_identify;
pub use making::{narbeddo_make, narbeddo_size};
pub use programs::{narbeddo_about, narbeddo_path};
pub use readings::{
    narbeddo_plate, narbeddo_plate_digest, narbeddo_prelude, narbeddo_read, narbeddo_value,
};
pub use rows::{narbeddo_byte, narbeddo_inputs, narbeddo_sample, narbeddo_scan};
