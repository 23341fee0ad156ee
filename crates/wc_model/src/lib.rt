//! The types that all crates of the weighing controller share, and, in `specs/`, the definitions that
//! their contracts cite.
#![tactic(auto)]

mod block;
mod byte_in;
mod byte_out;
mod code;
mod device;
mod device_in;
mod device_out;
mod fault;
mod fuse_in;
mod fuse_out;
mod fuse_writes;
mod image;
mod kind;
mod limits;
mod operand;
mod operator;
mod place;
mod putting;
mod source;
mod tree;
mod value;
mod words;
mod writing;

pub use block::StandardBlock;
pub use byte_in::ByteIn;
pub use byte_out::ByteOut;
pub use code::Code;
pub use device::Device;
pub use fault::Fault;
pub use fuse_in::FuseIn;
pub use fuse_out::FuseOut;
pub use image::{Image, Outputs, Steps};
pub use kind::{Kind, SlotKind};
pub use limits::{
    GREATEST_COUNTS, LAST_MOMENT, LEAST_COUNTS, LONGEST_JOB, LONGEST_NAME, MOST_BYTES, MOST_DEPTH,
    MOST_LINES, MOST_PLACES, MOST_ROWS, MOST_SPENT, MOST_STEPS, MOST_UNITS, MOST_VARIABLES,
};
pub use operand::{Operand, Word};
pub use operator::{Condition, Direction, Operator, StoreKind};
pub use place::{Path, Place};
pub use putting::{or_memory, put_bytes};
pub use source::{Decl, Initial, Section, Source, Unit, UnitKind};
pub use tree::{Argument, Instr, Line};
pub use value::{Value, wrap32};
pub use words::is_word;
pub use writing::{WriteFault, write_whole};
