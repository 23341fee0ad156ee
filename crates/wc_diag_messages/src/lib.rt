//! What is said of a refusal, for people, editors and programs: what is wrong, where, the line with its offending slice,
//! and what to write instead; and a page for each number. A message for people or editors has line feeds and characters that a
//! terminal only shows. The fixed lines, on which machines rely, are not made here.
#![tactic(auto)]

mod explaining;
mod jobs;
mod left_out;
mod object;
mod page;
mod parts;
mod placing;
mod snippets;
mod warned_parts;

pub use explaining::{refusal_message, warning_message};
pub use jobs::{JobSection, section_of};
pub use left_out::left_out_message;
pub use page::{page as page_of, warning_page};
pub use parts::Severity;
pub use wc_diag_spans::{Evidence, RefusalDetails};
pub use wc_diag_texts::{Message, shown_text};
