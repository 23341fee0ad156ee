//! What every text has without a declaration: the reserved words in one table, the directly
//! represented variables by their addresses, the fields of the standard function blocks, and the
//! kinds of results and operands that an operator takes and gives.
#![tactic(auto)]

mod address;
mod fields;
mod keyword;
mod keywords;
mod kinds;
mod meanings;
mod operands;
mod operators;

pub use address::variable_at;
pub use fields::{NumberedField, StandardField, field_named, standard_fields};
pub use keyword::Keyword;
pub use keywords::{END_FUNCTION_BLOCK, END_PROGRAM, END_VAR, FALSE, TRUE, keyword_named};
pub use kinds::{is_bool, kind_after_operator};
pub use meanings::{elementary_type, is_reserved, is_type_word, standard_block};
pub use operands::{is_bit_literal, is_divisor};
pub use operators::{divides, takes, takes_truth};
