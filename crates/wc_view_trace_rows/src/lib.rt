//! The items of a scan with what is known of them from the text, and the rows of a trace for people: the columns in which a row
//! has a line of the text, the result and what is written.
#![tactic(auto)]

mod columns;
mod item;
mod items;
mod legend;
mod levels;
mod notes;
mod noting;
mod outputs;
mod rows;
mod shown;
mod shown_scan;
mod steps;

pub use item::Item;
pub use items::Items;
pub use legend::Legend;
pub use levels::ItemNotes;
pub use notes::Note;
pub use outputs::{BlockOutput, number_in, outputs_of, value_of};
pub use rows::{is_argument, put_scan};
pub use shown::shown_lines_are_safe;
pub use shown_scan::ShownScan;
pub use steps::put_none_chosen;
