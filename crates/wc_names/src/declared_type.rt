use wc_model::{Kind, StandardBlock};

/// The type of a variable (IEC 61131-3:2003, 2.3 and 2.5.2).
#[derive(Clone, Copy, PartialEq, Eq)]
pub enum DeclaredType {
    /// An elementary type.
    Elementary(Kind),
    /// An instance of a standard function block.
    Standard(StandardBlock),
    /// An instance of a function block of the text, by the number of its unit.
    Block(usize),
}
