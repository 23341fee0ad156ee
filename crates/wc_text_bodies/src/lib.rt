//! A unit as far as it has been read: how a declaration or a line is added to it, what is wrong with the next token of a line, and
//! what is open at the end. The fast way: short lines of a body and of a section are read in place, several tokens at once, to what
//! the walk over the same tokens comes to. The reader is the same without it.
#![tactic(auto)]

mod bodies;
mod body_lines;
mod call_lines;
mod declarations;
mod line_faults;
mod open_lines;
mod section_lines;
mod tree_lines;

pub use bodies::{Body, add_label, add_shape, body_start, close, section_of_word};
pub use body_lines::operand_of;
pub use call_lines::take_line_and_call;
pub use declarations::{DeclarationState, SectionPlace, declaration_move};
pub use line_faults::{start_fault, state_fault};
pub use open_lines::{open_in, open_on};
pub use section_lines::take_declaration;
