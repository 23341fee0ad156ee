//! Where a program text in Instruction List is refused after it is read, each by the pass itself
//! once more, over places for lines; and which tokens of an instruction a pass refers to, and in
//! which way its rule is broken: its operator, its operand, or the name or the value of one of a
//! call's list.
#![tactic(auto)]

mod arguments;
mod calls;
mod declarations;
mod kinds;
mod operand_tokens;
mod results;
mod spanned_source;
mod spans;

pub use calls::{InCall, offending_in_call, operand_of_call};
pub use kinds::unfit;
pub use operand_tokens::{
    case_of_operand, is_listed, line_at, opens, operand_of, operator_of, span_of, tokens_at,
    tokens_from,
};
pub use spanned_source::{SpannedSource, read_by_places};
pub use spans::span_in;
