//! One line of a body: its words, its operators and operands, the lists of calls, and how far it has
//! been read. Its tokens are taken one after the other.
#![tactic(auto)]

mod calls;
mod line_state;
mod lines;
mod operands;
mod operators;
mod words;

pub use line_state::{
    Formal, InLine, InList, LineShape, LineState, OpenCall, OperandOf, StartedLine, Step,
};
pub use lines::{at_start, at_start_inside, line_move};
pub use operators::{OperandOperator, Operation, is_transfer, operation_named, operation_of};
pub use words::{ends_section, ends_unit, section_named, truth, unit_kind, word};
