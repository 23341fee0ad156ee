use crate::operand::Word;
use crate::tree::Line;
use crate::value::Value;
use std::alloc::Global;

/// A program text as a tree. Names borrow the text.
#[derive(Drop)]
pub struct Source<'a> {
    /// The function blocks in text order, and then the program.
    pub units: Vec<Unit<'a>, Global>,
}

/// What a program organisation unit is (IEC 61131-3:2003, 2.5).
#[derive(Clone, Copy, PartialEq, Eq)]
pub enum UnitKind {
    FunctionBlock,
    Program,
}

/// A program organisation unit (IEC 61131-3:2003, 2.5).
#[derive(Drop)]
pub struct Unit<'a> {
    pub kind: UnitKind,
    /// The line of its first keyword.
    pub line: u32,
    pub name: Word<'a>,
    /// Its declarations in text order.
    pub declarations: Vec<Decl<'a>, Global>,
    pub body: Vec<Line<'a>, Global>,
}

/// Which variables a section declares (IEC 61131-3:2003, table 16a).
#[derive(Clone, Copy, PartialEq, Eq)]
pub enum Section {
    /// VAR_INPUT.
    Input,
    /// VAR_OUTPUT.
    Output,
    /// VAR.
    Own,
}

/// A declaration: names of one type, with a value that they have at first.
#[derive(Drop)]
pub struct Decl<'a> {
    pub section: Section,
    /// The names in text order.
    pub names: Vec<Word<'a>, Global>,
    pub type_name: Word<'a>,
    /// The value after `:=`.
    pub initial: Option<Initial>,
}

/// The value after `:=` in a declaration.
#[derive(Clone, Copy)]
pub struct Initial {
    /// The literal. A whole number is a `Dint`, also if it serves as a BOOL.
    pub value: Value,
    /// The line of its token.
    pub line: u32,
}
