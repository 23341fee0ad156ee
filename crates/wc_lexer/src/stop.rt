use wc_model::Fault;

/// Why a pass over a text stopped, and the slice of the text at which it did.
#[derive(Clone, Copy, PartialEq, Eq)]
pub struct Stop {
    /// The number and the line of the fault, or out of memory.
    pub fault: Fault,
    /// Where the slice starts.
    pub start: u32,
    /// The number of bytes it has; 0 if there is none.
    pub length: u32,
}
