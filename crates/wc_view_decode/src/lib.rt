//! A report of a run for people and for a spreadsheet: each line decoded, and none lost.
#![tactic(auto)]

mod answer;
mod answer_texts;
mod decoder;
mod decoding;
mod entry_formats;
mod format;
mod frames;
mod lines;

pub use answer::{LineAnswer, WeightAnswer};
pub use answer_texts::{kind_text, motion_text, status_text, unit_text};
pub use decoding::decode;
pub use format::{DecodeFault, DecodeFormat};
pub use frames::{answer_length, answers_of_the_line_are_read, first_answer};
