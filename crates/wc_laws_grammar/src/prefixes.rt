//! Laws of prefixes, and of the first fault that is found in tokens.
ghost use Rattle.std.specs.Prelude.{ℕ, List, ◌++◌};
ghost use Rattle.wc_laws_grammar.specs.Laws.{OneFirstFault};
ghost use Rattle.wc_model.specs.Definitions.{Text, IsPrefix, Spells, Mark, IsFaultFree, IsFirstReadingFault, KeepsLimits, UnexpectedToken};

/// The tokens of a whole text are a prefix.
pub fn a_text_is_a_prefix()
    ensures { (tokens : List Mark) (text : Text) → Spells tokens text → IsPrefix tokens }
{}

/// What precedes some of a prefix's tokens is a prefix.
pub fn a_prefix_of_a_prefix_is_one()
    ensures { (prefix more : List Mark) → IsPrefix (prefix ++ more) → IsPrefix prefix }
{}

/// If an unexpected token is the first fault, the tokens spell no text.
pub fn an_unexpected_token_spells_nothing()
    ensures { (tokens : List Mark) (last_line line : ℕ) (text : Text)
        → IsFirstReadingFault tokens last_line UnexpectedToken line → ¬ (Spells tokens text) }
{}

/// Two first faults of the same tokens have the same number and the same line: a reader that answers by them has no choice.
pub fn one_first_fault()
    ensures { OneFirstFault }
{}

/// Before a first fault no limit is exceeded.
pub fn limits_hold_before_a_fault()
    ensures { (before left : List Mark) → IsFaultFree before left → KeepsLimits before left }
{}
