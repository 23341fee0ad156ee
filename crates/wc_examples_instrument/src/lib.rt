//! Worked examples of the indicator, its line, its log and its report, of a job that is answered from its bytes, and of
//! what a changed program keeps, computed on the definitions of `wc_model`.
//! Each function promises one example and does nothing.
#![tactic(auto, unfolding(crate::specs::Numerals::digits))]

pub mod changes;
pub mod edges;
pub mod first_job;
pub mod images;
pub mod jobs;
pub mod logs;
pub mod plates;
pub mod reports;
pub mod requests;
pub mod stability;
pub mod tare;
pub mod weights;
pub mod zero;
