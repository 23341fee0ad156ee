use crate::declared_type::DeclaredType;

/// A variable of a unit: its type, and where its places begin in the unit's frame.
#[derive(Clone, Copy, PartialEq, Eq)]
pub struct VariablePlace {
    pub declared: DeclaredType,
    /// Its place, or the first one of an instance.
    pub first: u16,
}
