use crate::value::Value;

/// A slice of the text, and the line of its token.
#[derive(Clone, Copy)]
pub struct Word<'a> {
    /// As it is spelled.
    pub text: &'a [u8],
    /// Counted from 1.
    pub line: u32,
}

/// What an instruction works on (IEC 61131-3:2003, 3.2.2).
#[derive(Clone, Copy)]
pub enum Operand<'a> {
    /// A literal. A whole number is a `Dint`, also if it serves as a BOOL.
    Literal(Value),
    /// A directly represented variable.
    Address(Word<'a>),
    /// A variable, or an instance, as it is spelled.
    Name(&'a [u8]),
    /// A field of an instance.
    Field {
        /// The instance, as it is spelled.
        instance: &'a [u8],
        /// The field, as it is spelled.
        field: &'a [u8],
    },
}
