use thiserror::Error;

/// Why a library call gave no result.
#[derive(Clone, Copy, PartialEq, Eq, Debug, Error)]
pub enum Fault {
    /// The input breaks a rule.
    #[error("refused {number} {place}")]
    Refused {
        /// The rule's number, by the list of refusals.
        number: u16,
        /// The line or row that breaks it, counted from 1; 0 if no line does.
        place: u32,
    },
    /// An allocation was refused: out of memory.
    #[error("out of memory")]
    Memory,
}
