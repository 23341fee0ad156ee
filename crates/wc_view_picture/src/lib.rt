//! A picture of a run: what a log, its plate and its program come to over time, as one SVG of a bounded size.
#![tactic(auto)]

mod axes;
mod drawing;
mod lane_rows;
mod marks;
mod picture;
mod readings;
mod rows;
mod sheet;
mod showing;
mod view;

pub use drawing::draw;
pub use showing::show_files;
pub use view::{ScanSteps, View};
