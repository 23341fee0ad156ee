use wc_model::{Kind, Place};

/// What an operand names, as a unit's body sees it.
#[derive(Clone, Copy, PartialEq, Eq)]
pub struct Entity {
    /// Its kind; an instance has none.
    pub kind: Option<Kind>,
    pub readable: bool,
    pub writable: bool,
    /// Its place in the unit's frame; a literal and an instance have none.
    pub place: Option<Place>,
}
