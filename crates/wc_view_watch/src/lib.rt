//! What people look at besides a report: a run whose variables are watched, with its report and for
//! each scan of it a line with the values of some variables, or the scans alone at which one of
//! these has changed; and a change of the program before it is made, for which both programs are
//! read and loaded, and what the change keeps and loses is written.
#![tactic(auto)]

mod last_texts;
mod last_values;
mod names;
mod previewing;
mod watched_names;
mod watcher;
mod watching;

pub use names::{UnknownName, within};
pub use previewing::preview_files;
pub use watched_names::WatchedNames;
pub use watching::{WatchChoice, is_at_names, watch_files};
