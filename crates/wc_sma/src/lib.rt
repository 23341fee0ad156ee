//! The line: requests are cut out of a stream of bytes, acted on and answered, however the stream is cut. Frames, letters
//! and fields are the profile's own.
#![tactic(auto)]

mod acting;
mod answers;
mod command;
mod letters;
mod line;
mod requests;
mod weight;

pub use answers::{Mode, RequestOutcome, answer};
pub use command::Command;
pub use letters::{MassUnit, Status, WeightKind, letters_are_those_of_answers, stable_of_letter};
pub use line::Line;
pub use requests::RequestReader;
pub use wc_model::WriteFault;
