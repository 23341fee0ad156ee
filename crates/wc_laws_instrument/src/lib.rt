//! Laws of the plate, the indication and the line, each a public function with an empty body.
#![tactic(auto)]

mod laws;

pub use laws::{
    a_job_is_its_sections, accepted_tables_are_plates, answers_are_free_of_programs,
    answers_are_free_of_scans, answers_have_twenty_bytes, chunks_joined, logs_can_be_cut,
    one_number_is_nearest, reports_from_the_change, reports_of_cut_logs, reports_up_to_the_change,
    rows_above_a_million, rows_are_in_order, rows_are_run, scan_lines_come_out,
    streams_are_cut_anywhere, stretches_are_requests, too_few_samples_are_motion,
    what_an_event_does,
};
