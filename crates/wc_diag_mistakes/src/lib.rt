//! Which mistake a refusal of a program text shows: words of other languages and systems, slips of writing, types and names
//! that do not match. It works on the tokens and the tree of the text.
#![tactic(auto)]

mod foreign;
mod mistakes;
mod refused;
mod types;
mod unreached;

pub use foreign::block_with;
pub use mistakes::mistake_at;
pub use refused::{RefusedText, Sentence, said_text, words};
pub use types::difference_said;
pub use unreached::{block_line, follows_leaving, is_unreached};
