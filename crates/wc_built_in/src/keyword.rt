use wc_model::{Condition, Kind, Operator, Section, StandardBlock, StoreKind, UnitKind};

/// What a reserved word represents (IEC 61131-3:2003, tables 10, 51, 52 and C.2).
#[derive(Clone, Copy)]
pub enum Keyword {
    /// LD, or LDN if negated.
    Load(bool),
    /// ST, STN, S, R.
    Store(StoreKind),
    /// An operator that a parenthesis may defer.
    Apply(Operator),
    Not,
    /// JMP, JMPC, JMPCN.
    Jump(Condition),
    /// CAL, CALC, CALCN.
    Call(Condition),
    /// RET, RETC, RETCN.
    Return(Condition),
    /// The word that begins a unit.
    UnitStart(UnitKind),
    /// The word that ends a unit.
    UnitEnd(UnitKind),
    /// The word that begins a section of declarations.
    SectionStart(Section),
    /// END_VAR.
    SectionEnd,
    /// TRUE, FALSE.
    Truth(bool),
    /// An elementary type.
    Elementary(Kind),
    /// A standard function block.
    Standard(StandardBlock),
    /// A word that the standard keeps for what this language leaves out.
    Kept,
}
