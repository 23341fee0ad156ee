use crate::operand::{Operand, Word};
use crate::operator::{Condition, Direction, Operator, StoreKind};
use std::alloc::Global;

/// A line of a body: a label, an instruction, or both.
#[cycle(tree)]
#[derive(Drop)]
pub struct Line<'a> {
    /// The label before the instruction, with its line.
    pub label: Option<Word<'a>>,
    /// The instruction, which a label alone has not.
    pub instr: Option<Instr<'a>>,
}

/// An instruction (IEC 61131-3:2003, 3.2). `line` is the line of its first token after any label.
#[cycle(tree)]
#[derive(Drop)]
pub enum Instr<'a> {
    /// LD, or LDN if negated.
    Load {
        negated: bool,
        operand: Operand<'a>,
        line: u32,
    },
    /// ST, STN, S, R.
    Store {
        storing: StoreKind,
        target: Operand<'a>,
        line: u32,
    },
    /// An operator with its operand.
    Apply {
        operator: Operator,
        /// The second operand; the first is the current result.
        operand: Operand<'a>,
        line: u32,
    },
    /// An operator that is deferred to the `)` that closes it.
    Defer {
        operator: Operator,
        /// What the short form loads first.
        operand: Option<Operand<'a>>,
        inside: Vec<Line<'a>, Global>,
        /// The line of the operator.
        line: u32,
        /// The line of the `)`.
        close: u32,
    },
    Not {
        line: u32,
    },
    /// JMP, JMPC, JMPCN.
    Jump {
        condition: Condition,
        /// Where it goes on, as it is spelled.
        label: &'a [u8],
        line: u32,
    },
    /// CAL, CALC, CALCN.
    Call {
        condition: Condition,
        /// The instance whose block is called, as it is spelled.
        instance: &'a [u8],
        /// The inputs that are assigned and the outputs that are given out, in written order.
        arguments: Vec<Argument<'a>, Global>,
        line: u32,
    },
    /// RET, RETC, RETCN.
    Return {
        condition: Condition,
        line: u32,
    },
}

/// `name := value` or `name => target` in a call.
#[derive(Drop)]
pub struct Argument<'a> {
    /// Whether an input is assigned or an output is given out.
    pub direction: Direction,
    /// The input or the output, as it is spelled.
    pub name: &'a [u8],
    /// What the input is assigned, or where the output is written.
    pub value: Operand<'a>,
}
