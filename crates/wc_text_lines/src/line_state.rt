use crate::operators::OperandOperator;
use std::alloc::Global;
use wc_model::{Argument, Condition, Direction, Operand, Operator, Word};

/// An instruction that has started: its label, and the line of its first token.
#[derive(Clone, Copy)]
pub struct StartedLine<'a> {
    pub label: Option<Word<'a>>,
    pub line: u32,
}

/// A call whose list has started, with the arguments so far.
#[derive(Drop)]
pub struct OpenCall<'a> {
    pub condition: Condition,
    pub instance: Word<'a>,
    pub arguments: Vec<Argument<'a>, Global>,
}

/// An instruction that opens no parenthesis.
#[derive(Drop)]
pub enum Step<'a> {
    /// An operator with its operand.
    Operate(OperandOperator, Operand<'a>),
    Negate,
    Jump(Condition, Word<'a>),
    Call(OpenCall<'a>),
    Return(Condition),
}

/// The input or output that one of a call's list names.
#[derive(Clone, Copy)]
pub struct Formal<'a> {
    pub direction: Direction,
    pub word: Word<'a>,
}

/// Whose operand is here.
#[derive(Drop)]
pub enum OperandOf<'a> {
    /// An instruction's.
    OfStep(OperandOperator),
    /// An opening line's.
    OfOpening(Operator),
    /// That of one of a call's list, with its input or output.
    OfArgument(OpenCall<'a>, Formal<'a>),
}

/// Where a call's list is.
#[derive(Clone, Copy)]
pub enum InList<'a> {
    /// After its bracket.
    AtFirst,
    /// After a comma.
    AtNext,
    /// After the name of an input or output.
    AtAssign(Word<'a>),
    /// After its `:=` or `=>`.
    AtValue(Formal<'a>),
    /// After a whole argument.
    AtEnd,
}

/// What a whole line with an instruction is.
#[derive(Drop)]
pub enum LineShape<'a> {
    /// An instruction.
    Instructs(Step<'a>),
    /// The opening of a parenthesis, with its operand if it has one.
    Opens(Operator, Option<Operand<'a>>),
}

/// How far an instruction has been read that has started.
#[derive(Drop)]
pub enum InLine<'a> {
    /// After an operator that takes an operand.
    Operated(OperandOperator),
    /// After a jump's operator.
    Jumped(Condition),
    /// After a call's operator.
    Called(Condition),
    /// After a call's instance.
    Instanced(Condition, Word<'a>),
    /// In a call's list.
    Listing(OpenCall<'a>, InList<'a>),
    /// After a name where an operand is, and whether after the point after it too.
    Named(OperandOf<'a>, Word<'a>, bool),
    /// After what may be the whole line, and whether after the line's end too.
    Formed(LineShape<'a>, bool),
}

/// How far a line of a body has been read.
#[derive(Drop)]
pub enum LineState<'a> {
    /// After an identifier that is a label if anything is.
    Worded(Word<'a>),
    /// After a label's colon.
    Labelled(Word<'a>),
    /// After the line's end, if a label is alone.
    LabelAlone(Word<'a>),
    /// After an operator, with what has started there.
    Instructing(StartedLine<'a>, InLine<'a>),
}
