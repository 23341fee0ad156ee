//! Laws about the tokens of a text and about the grammar of the Instruction List profile, each a
//! public function with an empty body. The lemmas on which those of the grammar rest are a walk
//! over a text's tokens, one by one, which says what they spell or which fault in them is the
//! first; `specs/` also says how far a reader of a text looks ahead.
#![tactic(auto)]

mod prefixes;
mod tokens;

ghost use Rattle.wc_laws_grammar.specs.Laws.{FaultSpellsNothing, OneText, TextOrFault};

pub use prefixes::{
    a_prefix_of_a_prefix_is_one, a_text_is_a_prefix, an_unexpected_token_spells_nothing,
    limits_hold_before_a_fault, one_first_fault,
};
pub use tokens::{
    a_cut_has_no_fault, a_cut_is_unique, a_first_fault_is_unique, a_long_text_is_refused,
    a_text_has_tokens_or_a_fault, tokens_are_in_order, tokens_are_slices,
};

/// Tokens spell one text at most.
pub fn tokens_spell_one_text()
    ensures { OneText }
{}

/// Tokens spell a text within the limits, or have a first fault.
pub fn tokens_spell_a_text_or_have_a_fault()
    ensures { TextOrFault }
{}

/// Tokens that have a first fault spell no text within the limits.
pub fn a_fault_spells_nothing()
    ensures { FaultSpellsNothing }
{}
