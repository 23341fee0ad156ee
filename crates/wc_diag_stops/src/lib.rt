//! Where the reading of a program text in Instruction List stops, and what could be there: the reader's walk once more, over
//! places for lines. In which way a slice at which it stops is no token, and what is around it.
#![tactic(auto)]

mod around;
mod expected;
mod lexical;
mod span;
mod stops;
mod words;

pub use around::{
    exchange, is_line_end, is_shape, last_line, operator_on, text_of, without_line_ends, word_of,
};
pub use expected::the_list_is_exact;
pub use lexical::{
    BYTE_ORDER_MARK, case_of_lexeme, is_bare_duration, is_digit, is_operator, mistaken_byte,
    mistaken_duration, mistaken_number, mistaken_statement, text_before,
};
pub use span::{Brought, LabelPaths, PathToLabel, RefusalSpan, ResultKind, Slice};
pub use stops::{StoppedText, stop_of};
pub use words::{
    bytes_at, difference, first_word, following, is_among, is_near, prefix, same_prefix,
};
