ghost use Rattle.std.specs.Prelude.{◌≡◌, []};

/// What could be in place of a refused token. `words_of` says which tokens those are.
#[derive(Clone, Copy)]
pub enum Expected {
    /// Nothing, or that is not what is wrong.
    Nothing,
    /// The colon of a label, of which another sentence speaks.
    LabelColon,
    UnitWord,
    UnitName,
    NameOrEndVar,
    CommaOrColon,
    Name,
    TypeName,
    AssignOrSemicolon,
    Literal,
    Semicolon,
    Instruction,
    InstructionOrClosing,
    InstructionOrLineEnd,
    Operand,
    OperandOrOpening,
    OperandOrLineEnd,
    Label,
    Instance,
    LineEnd,
    OpeningOrLineEnd,
    PointOrLineEnd,
    Field,
    FormalOrClosing,
    Formal,
    AssignOrArrow,
    CommaOrClosing,
    CommaPointOrClosing,
}

/// What could be in place of an unexpected token; nothing if it is said otherwise.
pub fn words_of(expected: Expected) -> &'static str
    ensures { expected ≡ Expected.Nothing → result.now ≡ [] }
{
    *match expected {
        Expected::Nothing | Expected::LabelColon => &"",
        Expected::UnitWord => &"PROGRAM or FUNCTION_BLOCK",
        Expected::UnitName => &"the unit's name",
        Expected::NameOrEndVar => &"END_VAR or a name",
        Expected::CommaOrColon => &"`:` or `,`",
        Expected::Name => &"a name",
        Expected::TypeName => &"a type",
        Expected::AssignOrSemicolon => &"`:=` or `;`",
        Expected::Literal => &"a literal",
        Expected::Semicolon => &"`;`",
        Expected::Instruction => &"an instruction",
        Expected::InstructionOrClosing => &"an instruction or `)`",
        Expected::InstructionOrLineEnd => &"an instruction or the end of the line",
        Expected::Operand => &"an operand",
        Expected::OperandOrOpening => &"an operand or `(`",
        Expected::OperandOrLineEnd => &"an operand or the end of the line",
        Expected::Label => &"a label",
        Expected::Instance => &"the name of an instance",
        Expected::LineEnd => &"the end of the line",
        Expected::OpeningOrLineEnd => &"`(` or the end of the line",
        Expected::PointOrLineEnd => &"`.` or the end of the line",
        Expected::Field => &"the name of a field",
        Expected::FormalOrClosing => &"an input, an output or `)`",
        Expected::Formal => &"an input or an output",
        Expected::AssignOrArrow => &"`:=` or `=>`",
        Expected::CommaOrClosing => &"`,` or `)`",
        Expected::CommaPointOrClosing => &"`,`, `.` or `)`",
    }
}
