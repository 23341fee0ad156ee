ghost use Rattle.std.specs.Prelude.{ℕ, ◌≤◌, ◌∷◌, [], ◌++◌, codes};
ghost use Rattle.wc_examples_language.specs.Texts.{mark, ident, end_of};
ghost use Rattle.wc_examples_language.specs.Faulty.{loaded, opened, opened_short, one_program, eight_opened, jmpnc_before, jmpnc_left, bare_load_before, blocks, program_of_loads};
ghost use Rattle.wc_model.specs.Definitions.{Step, IsPrefix, IsOperatorOf, OpeningBracket, ClosingBracket, Colon, IsRaised, IsFirstReadingFault, UnexpectedToken, UnitNotClosed, NotOneProgramLast, EmptyParentheses, NotAllowedInParentheses, ParenthesisNotPaired, TooDeep, TooMany};

/// `LD TRUE / )`: no parenthesis is open at the `)`, which is on line 3.
pub fn a_bracket_with_none_open()
    ensures prefix { IsPrefix loaded }
    ensures raised { IsRaised ParenthesisNotPaired loaded
        (mark ClosingBracket 3 ∷ end_of 3 ∷ ident (codes "END_PROGRAM") 4 ∷ []) 4 3 }
{}

/// `LD TRUE / AND( / )`: the `)` on line 4 closes empty parentheses.
pub fn empty_parentheses()
    ensures prefix { IsPrefix opened }
    ensures raised { IsRaised EmptyParentheses opened
        (mark ClosingBracket 4 ∷ end_of 4 ∷ ident (codes "END_PROGRAM") 5 ∷ []) 5 4 }
{}

/// `LD TRUE / AND( TRUE / RET`: RET on line 4 is in parentheses.
pub fn a_return_in_parentheses()
    ensures prefix { IsPrefix opened_short }
    ensures raised { IsRaised NotAllowedInParentheses opened_short
        (ident (codes "RET") 4 ∷ end_of 4 ∷ []) 5 4 }
{}

/// `LD TRUE / AND( TRUE / L: NOT`: the label on line 4 is in parentheses.
pub fn a_label_in_parentheses()
    ensures { IsRaised NotAllowedInParentheses opened_short
        (ident (codes "L") 4 ∷ mark Colon 4 ∷ ident (codes "NOT") 4 ∷ []) 4 4 }
{}

/// `LD TRUE / AND( TRUE / END_PROGRAM`: the parenthesis of line 3 is open at the unit's end.
pub fn an_open_parenthesis_at_the_units_end()
    ensures { IsRaised ParenthesisNotPaired opened_short (ident (codes "END_PROGRAM") 4 ∷ []) 4 3 }
{}

/// `LD TRUE / AND( TRUE /` and the text's end: the parenthesis of line 3 is open.
pub fn an_open_parenthesis_at_the_texts_end()
    ensures { IsRaised ParenthesisNotPaired opened_short [] 4 3 }
{}

/// `LD TRUE / AND(` and the text's end: after the bracket the text ends inside.
pub fn the_texts_end_after_a_bracket()
    ensures { IsRaised ParenthesisNotPaired
        (loaded ++ ident (codes "AND") 3 ∷ mark OpeningBracket 3 ∷ []) [] 3 3 }
{}

/// `LD TRUE / AND` and the text's end: no parenthesis is open, and the unit of line 1 is.
pub fn the_texts_end_after_an_operator()
    ensures { IsRaised UnitNotClosed (loaded ++ ident (codes "AND") 3 ∷ []) [] 3 1 }
{}

/// `PROGRAM P / LD TRUE /` and the text's end: the unit of line 1 is open.
pub fn an_open_unit()
    ensures { IsRaised UnitNotClosed loaded [] 3 1 }
{}

/// `PROGRAM` and the text's end.
pub fn the_texts_end_after_a_units_first_word()
    ensures { IsRaised UnitNotClosed (ident (codes "PROGRAM") 1 ∷ []) [] 1 1 }
{}

/// `PROGRAM P / END_PROGRAM / PROGRAM Q / END_PROGRAM`: a second program on line 3.
pub fn a_second_program()
    ensures prefix { IsPrefix one_program }
    ensures raised { IsRaised NotOneProgramLast one_program
        (ident (codes "PROGRAM") 3 ∷ ident (codes "Q") 3 ∷ []) 4 3 }
{}

/// The empty text has no program; its last line is line 1.
pub fn an_empty_text()
    ensures { IsRaised NotOneProgramLast [] [] 1 1 }
{}

/// `LD TRUE`, and `AND(` on the lines 3 to 11: the ninth parenthesis is one too many.
pub fn nine_parentheses()
    ensures { IsRaised TooDeep eight_opened (mark OpeningBracket 11 ∷ end_of 11 ∷ []) 12 11 }
{}

/// No instruction begins with JMPNC.
pub fn jmpnc_is_no_operator()
    ensures { (step : Step) (line : ℕ) → ¬ (IsOperatorOf step (ident (codes "JMPNC") line)) }
{}

/// `PROGRAM P / JMPNC L / END_PROGRAM`: JMPNC is not an operator, though it could be a label. So the
/// first fault is the unexpected token after it, on line 2.
pub fn first_fault_is_an_unknown_operator()
    ensures { IsFirstReadingFault (jmpnc_before ++ jmpnc_left) 3 UnexpectedToken 2 }
{}

/// `LD` alone on line 2: it could be a label, and after an operator comes its operand. So the line's end
/// is unexpected, and the tokens before it are a prefix.
pub fn a_load_of_nothing()
    ensures prefix { IsPrefix bare_load_before }
    ensures raised { IsRaised UnexpectedToken bare_load_before
        (end_of 2 ∷ ident (codes "END_PROGRAM") 3 ∷ []) 3 2 }
{}

/// 1024 lines and more: one further instruction is too many, at its operator's line.
pub fn one_line_too_many()
    ensures { (n line : ℕ) → 1024 ≤ n
        → IsRaised TooMany (program_of_loads n)
        (ident (codes "LD") line ∷ ident (codes "TRUE") line ∷ []) line line }
{}

/// 64 function blocks and more: one further unit is too many, at its first word's line.
pub fn one_unit_too_many()
    ensures { (n line : ℕ) → 64 ≤ n
        → IsRaised TooMany (blocks n)
        (ident (codes "PROGRAM") line ∷ ident (codes "P") line ∷ []) line line }
{}

/// `LD TRUE / AND( TRUE / LD: NOT`: a line's first identifier is a label if a colon follows, also LD. So
/// the fault is at LD, though LD alone could begin an instruction.
pub fn a_label_named_as_an_operator()
    ensures { IsRaised NotAllowedInParentheses opened_short
        (ident (codes "LD") 4 ∷ mark Colon 4 ∷ ident (codes "NOT") 4 ∷ []) 4 4 }
{}
