use wc_machine::SeenLine;
use wc_model::Outputs;

/// A scan that is shown: where it is in the run, and what it did.
#[derive(Clone, Copy)]
pub struct ShownScan<'a> {
    /// Its number among the scans of the run, from 1.
    pub number: u32,
    /// Its time in milliseconds.
    pub ms: u64,
    /// Whether the next program has replaced the first.
    pub is_changed: bool,
    /// The outputs that it left.
    pub outputs: Outputs,
    /// The items that it executed, in order.
    pub lines: &'a [SeenLine],
}
