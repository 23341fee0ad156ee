/// An operator with two operands (IEC 61131-3:2003, table 52), which may also be deferred by a
/// parenthesis.
#[derive(Clone, Copy, PartialEq, Eq)]
pub enum Operator {
    /// AND and `&`.
    And,
    /// ANDN and `&N`: the operand is negated first.
    Andn,
    Or,
    /// ORN: the operand is negated first.
    Orn,
    Xor,
    /// XORN: the operand is negated first.
    Xorn,
    Add,
    Sub,
    Mul,
    /// DIV, toward zero.
    Div,
    /// MOD, with the sign of the dividend.
    Mod,
    /// GT, greater.
    Gt,
    /// GE, greater or equal.
    Ge,
    /// EQ, equal.
    Eq,
    /// NE, not equal.
    Ne,
    /// LE, less or equal.
    Le,
    /// LT, less.
    Lt,
}

/// When a jump, a call or a return acts (IEC 61131-3:2003, table 51, modifiers C and N).
#[derive(Clone, Copy, PartialEq, Eq)]
pub enum Condition {
    /// Always: JMP, CAL, RET.
    Always,
    /// Where the current result is TRUE: JMPC, CALC, RETC.
    IfTrue,
    /// Where the current result is FALSE: JMPCN, CALCN, RETCN.
    IfFalse,
}

/// Which way a value goes when a block is called (IEC 61131-3:2003, annex B.3.1,
/// il_param_assignment and il_param_out_assignment).
#[derive(Clone, Copy, PartialEq, Eq)]
pub enum Direction {
    /// `:=`, from an operand to an input, before the block's body.
    Into,
    /// `=>`, from an output to a target, after the block's body.
    OutOf,
}

/// What is stored of the current result (IEC 61131-3:2003, table 52).
#[derive(Clone, Copy, PartialEq, Eq)]
pub enum StoreKind {
    /// ST: the result.
    Result,
    /// STN: its negation.
    Negation,
    /// S: TRUE if the result is TRUE, else nothing.
    Set,
    /// R: FALSE if the result is TRUE, else nothing.
    Reset,
}
