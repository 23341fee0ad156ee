ghost use Rattle.std.specs.Prelude.{List, ◌∷◌, [], ◌++◌, ◌⊎◌, codes};
ghost use Rattle.wc_examples_language.specs.Texts.{ident, copy_tokens, copy_lines, jump_tokens, jump_lines, declaration_tokens, declaring_program, call_tokens, call_lines, ampersand_tokens, ampersand_lines, program_of, program_text, bare_call_lines, bare_call_tokens, block_b, block_tokens};
ghost use Rattle.wc_model.specs.Definitions.{InBody, Spells, identifier, lines, end_word, ◌then◌, IsSymbol, LineEnd, Mark, End};
ghost use Rattle.wc_model.specs.declared.source.UnitKind.{UnitKind};

/// The text `PROGRAM P / LD %IX0.0 / ST %QX0.0 / END_PROGRAM`.
pub fn a_copy_of_one_bit()
    ensures { Spells copy_tokens (program_of copy_lines ∷ []) }
{}

/// A body without lines is line ends, and then the last word of its unit.
pub fn an_empty_body_is_line_ends()
    ensures { (kind : UnitKind) (token : Mark) (tokens : List Mark)
        → (lines InBody End then identifier (end_word kind)) (token ∷ tokens)
        → identifier (end_word kind) (token ∷ tokens) ⊎ (IsSymbol LineEnd token
        × (lines InBody End then identifier (end_word kind)) tokens) }
{}

/// `PROGRAM P END_PROGRAM` on one line.
pub fn end_after_the_name()
    ensures { Spells
        (ident (codes "PROGRAM") 1 ∷ ident (codes "P") 1 ∷ ident (codes "END_PROGRAM") 1 ∷ [])
        (program_of End ∷ []) }
{}

/// A jump, a parenthesis in the long and in the short form, a labelled line, and a label alone.
pub fn labels_jumps_and_parentheses()
    ensures { Spells (program_text jump_tokens 12) (program_of jump_lines ∷ []) }
{}

/// `VAR a, / b : DINT := 5; END_VAR`: line ends are skipped in declarations.
pub fn a_declaration_of_two_names()
    ensures { Spells (program_text declaration_tokens 4) (declaring_program ∷ []) }
{}

/// `CAL t(IN := t.Q, / Q => %QX0.0, PT := T#1s)`: a call's list may be on several lines, inputs and outputs
/// in any order.
pub fn a_call_on_two_lines()
    ensures { Spells (program_text call_tokens 4) (program_of call_lines ∷ []) }
{}

/// `&N x` is AND with a negated x, `& Nx` is AND with Nx, and `& N` is AND with N.
pub fn ampersands()
    ensures { Spells (program_text ampersand_tokens 6) (program_of ampersand_lines ∷ []) }
{}

/// `FUNCTION_BLOCK B END_FUNCTION_BLOCK PROGRAM P END_PROGRAM`: two units on one line.
pub fn two_units_on_one_line()
    ensures { Spells
        (block_tokens
        ++ ident (codes "PROGRAM") 1 ∷ ident (codes "P") 1 ∷ ident (codes "END_PROGRAM") 1 ∷ [])
        (block_b ∷ program_of End ∷ []) }
{}

/// `CAL t / / CAL t()`: without arguments the list may be left out, and an empty line is not a line.
pub fn calls_without_arguments()
    ensures { Spells (program_text bare_call_tokens 5) (program_of bare_call_lines ∷ []) }
{}
