//! What each word of the program does with its inputs: a program text is loaded and its units'
//! bounds are written, a log is run, a job is answered.
#![tactic(auto)]

mod answering;
mod checking;
mod ending;
mod loaded;
mod log_runs;
mod reading;
mod running;
mod unit_lines;

pub use answering::{answer_job, job};
pub use checking::{check, check_file, load, the_headline};
pub use ending::{Ending, InputFault, end};
pub use log_runs::{run, run_last};
pub use reading::read_input;
pub use running::{RunInputs, last_files, report_files, run_files, run_inputs};
pub use unit_lines::text_of_units;
pub use wc_job::Input;
pub use wc_run::{RefusedRow, RunFault};
