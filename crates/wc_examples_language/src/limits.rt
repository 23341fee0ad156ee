//! The number of lines and parentheses bodies have, and the greatest number of lines.
ghost use Rattle.std.specs.Prelude.{◌≡◌, ℕ, ◌≤◌, [], ◌∷◌};
ghost use Rattle.wc_examples_language.specs.Faulty.{load_lines};
ghost use Rattle.wc_examples_language.specs.Texts.{jump_lines, program_of};
ghost use Rattle.wc_model.specs.Text.Limits.{depth, line_count, IsWithinLimits};

/// Two loads and jumps, two parentheses with two lines in one of them, a store, and a label alone: nine
/// lines, no parenthesis in another.
pub fn lines_and_depth()
    ensures lines { line_count jump_lines ≡ 9 }
    ensures depth { depth jump_lines ≡ 1 }
{}

/// A program of 1024 lines or fewer is within the limits.
pub fn as_many_lines_as_may_be()
    ensures { (n : ℕ) → n ≤ 1024 → IsWithinLimits (program_of (load_lines 2 n) ∷ []) }
{}
