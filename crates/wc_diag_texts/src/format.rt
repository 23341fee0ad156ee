/// The format of a refusal's message.
#[derive(Clone, Copy, PartialEq, Eq)]
pub enum Format {
    /// For people: what is wrong, where, the line with its offending slice, and what to write instead.
    Long,
    /// For editors: what is wrong and where, on one line.
    Short,
    /// For programs: the same and what to write instead, as one JSON object on one line.
    Json,
}
