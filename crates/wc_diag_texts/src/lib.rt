//! The sentences of the refusals: what is said of each by its number (`entry_of`; of a warning `warning_of`), by the case in
//! which its rule is broken (`sentence_of`, `hint_of`), of what could be there (`words_of`) and of the paths to a label
//! (`paths_text`); and bytes as they are shown to people: a text of characters that a terminal only shows (`Message`), and
//! columns of a line.
#![tactic(auto)]

mod acting;
mod case;
mod catalogue;
mod expected;
mod format;
mod message;
mod mistakes;
mod paths;
mod plain;

pub use acting::hidden_length;
pub use case::Case;
pub use catalogue::{Entry, entry_of, warning_of};
pub use expected::{Expected, words_of};
pub use format::Format;
pub use message::{Message, shown_text};
pub use mistakes::{Mistake, hint_of, sentence_of};
pub use paths::{Paths, empty_path_advice, paths_text};
pub use plain::{characters, column_of, passes, with_spaces};
