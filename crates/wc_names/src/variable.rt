use crate::declared_type::DeclaredType;
use wc_model::{Section, Value};

/// A variable of a unit, as its table keeps it.
#[derive(Clone, Copy)]
pub struct Variable {
    pub section: Section,
    pub declared: DeclaredType,
    /// Its place in the unit's frame, or the first one of an instance.
    pub first: u16,
    /// The literal that it has at first, if one is written.
    pub initial: Option<Value>,
}
