//! Worked examples of the language: what is cut into which tokens, which tokens spell which tree, which fault is found where, and the
//! definitions computed on programs. Each function is a statement: its body is empty, and its `ensures` is proved. In the texts of
//! the grammar `/` ends a line.
#![tactic(auto)]

mod bistables;
mod body_faults;
mod call_outputs;
mod cuts;
mod declaration_faults;
mod durations;
mod identifiers;
mod limits;
mod literals;
mod meaning;
mod numbers;
mod paths;
mod pulses;
mod reading_faults;
mod spelled;
mod timers;
mod token_faults;

pub use limits::{as_many_lines_as_may_be, lines_and_depth};
pub use reading_faults::{
    a_bracket_with_none_open, a_label_in_parentheses, a_label_named_as_an_operator,
    a_load_of_nothing, a_return_in_parentheses, a_second_program, an_empty_text,
    an_open_parenthesis_at_the_texts_end, an_open_parenthesis_at_the_units_end, an_open_unit,
    empty_parentheses, first_fault_is_an_unknown_operator, nine_parentheses, one_line_too_many,
    one_unit_too_many, the_texts_end_after_a_bracket, the_texts_end_after_a_units_first_word,
    the_texts_end_after_an_operator,
};
pub use spelled::{
    a_call_on_two_lines, a_copy_of_one_bit, a_declaration_of_two_names, ampersands,
    calls_without_arguments, end_after_the_name, labels_jumps_and_parentheses,
    two_units_on_one_line,
};
