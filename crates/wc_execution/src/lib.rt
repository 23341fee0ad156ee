//! Flat code over a store of plain numbers: what one line of a body does to it, a call of a standard block over its places, the
//! process image that goes to the inputs, and what is at the outputs. It knows no text and no other body.
#![tactic(auto)]

mod course;
mod fields;
mod image;
mod operators;
mod outputs;
mod own_lines;
mod places;
mod plain_blocks;
mod standard;
mod tof;
mod ton;
mod tp;

pub use course::{Count, Flow, LineResult, count_on, next_line, with_lines};
pub use image::copy_image;
pub use outputs::{number_at, read_outputs};
pub use own_lines::{go_on, step};
pub use places::number_written;
