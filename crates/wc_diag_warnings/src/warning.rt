/// A warning of a program text.
#[derive(Clone, Copy, PartialEq, Eq, Debug)]
pub struct Warning<'a> {
    /// Its number, 1 to 9, which is written after a W.
    pub number: u8,
    /// The line of the text, counted from 1: that of the name in its declaration, or that of the instruction.
    pub line: u32,
    /// The variable, instance or address, as it is spelled there; empty for lines that no run reaches.
    pub name: &'a [u8],
}
