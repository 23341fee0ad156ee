use crate::levels::ItemNotes;
use wc_machine::SeenLine;

/// An item that a scan executed, with what is known of it from the text.
#[derive(Clone, Copy)]
pub struct Item {
    /// What is seen of it.
    pub seen: SeenLine,
    /// What the text says of it.
    pub said: ItemNotes,
    /// Whether it is the body of a standard block that the scan does not call again, so that the
    /// outputs after it are those that the scan leaves.
    pub is_last_call: bool,
    /// The number of the block's first output then, if it is one.
    pub first: Option<i32>,
    /// The number of its second output, if it has two.
    pub second: Option<i32>,
}
