use wc_model::{Kind, Place, Section};

/// A plain variable of a unit: one of an elementary type.
#[derive(Clone, Copy)]
pub struct Field<'a> {
    /// The name, as it is spelled.
    pub name: &'a [u8],
    pub section: Section,
    pub kind: Kind,
    /// Its place in the unit's frame.
    pub place: Place,
}
