//! The tree of a program text in Instruction List: its tokens are taken one after the other, so
//! that no text makes the reader recurse.
#![tactic(auto)]

mod body_moves;
mod ends;
mod faults;
mod moves;
mod text;
mod text_state;

pub use ends::at_text_end;
pub use faults::has_program;
pub use text::{last_line, read, read_at, read_tokens, reading_start, take_lines};
pub use text_state::{LinePlace, Progress, TextState};
