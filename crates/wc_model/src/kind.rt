/// The elementary data types of the profile (IEC 61131-3:2003, 2.3.1).
#[derive(Clone, Copy, PartialEq, Eq)]
pub enum Kind {
    /// TRUE or FALSE.
    Bool,
    /// A signed number of 32 bits.
    Dint,
    /// A duration in milliseconds, a signed number of 32 bits.
    Time,
}

/// What a place of a frame holds.
#[derive(Clone, Copy, PartialEq, Eq)]
pub enum SlotKind {
    /// 0 for FALSE or 1 for TRUE.
    Bool,
    /// -2147483648..2147483647.
    Dint,
    /// -2147483648..2147483647 milliseconds.
    Time,
    /// The moment that a timer keeps: 0..1099511627775 milliseconds.
    Moment,
    /// The phase that a timer keeps: 0..2.
    Phase,
}
