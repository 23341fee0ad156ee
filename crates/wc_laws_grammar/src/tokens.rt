//! Laws of all texts.
ghost use Rattle.std.specs.Prelude.{◌≡◌, ℕ, List, length};
ghost use Rattle.wc_model.specs.Definitions.{CutHasNoFault, CutIsUnique, CutOrFault, FirstFaultIsUnique, LongTextIsRefused, TokensAreInOrder, TokensAreSlices, IsFirstTokenFault};

/// A text has one list of tokens.
pub fn a_cut_is_unique()
    ensures { CutIsUnique }
{}

/// A text within the limit that has tokens has no fault.
pub fn a_cut_has_no_fault()
    ensures { CutHasNoFault }
{}

/// A text has one first fault.
pub fn a_first_fault_is_unique()
    ensures { FirstFaultIsUnique }
{}

/// A text has tokens or a first fault.
pub fn a_text_has_tokens_or_a_fault()
    ensures { CutOrFault }
{}

/// A text that is too long is refused at no line, whatever it holds.
pub fn a_long_text_is_refused()
    ensures law { LongTextIsRefused }
    ensures one_byte_too_many { (text : List ℕ) → length text ≡ 65537
        → IsFirstTokenFault text 107 0 }
{}

/// The tokens of a text are its slices, each on the line of its first byte.
pub fn tokens_are_slices()
    ensures { TokensAreSlices }
{}

/// Each token ends before the later ones start.
pub fn tokens_are_in_order()
    ensures { TokensAreInOrder }
{}
