//! Flat code: what it means on numbers alone, when it is a lowered program text, that it then means
//! what the text means, and what is seen of a scan of either. Each function has an empty body: its
//! clause is the law, or an example that computes.
#![tactic(auto)]

mod examples;
mod laws;

pub use examples::{
    block_is_called, body_is_lowered, jump_passes_over, nothing_else_has_a_meaning,
    parentheses_defer, timer_is_called,
};
pub use laws::{
    calls_are_runs, ended_bodies_are_over, first_numbers_are_contents,
    flat_code_has_the_worst_path, flat_code_is_seen_as_the_text, flat_code_is_short,
    flat_code_means_the_text, flat_code_scans_the_text, held_numbers_stay_held,
    lowered_code_keeps_within, lowered_code_nests, outputs_are_numbers, seen_is_the_trace,
    skipped_lines_are_dropped,
};
