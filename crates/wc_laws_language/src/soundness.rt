//! A text whose bodies break no rule is never stuck. Each function has an empty body: its clause is
//! the law.
ghost use Rattle.wc_laws_language.specs.Typing.{AStandardBlockIsKeptWhole, ATextForItselfIsNoChange, CarriedStoreHoldsItsKinds};
ghost use Rattle.wc_laws_language.specs.SoundnessLaws.{LoadedTextIsNeverStuck, NoRunIsEverStuck, SpelledTextNestsSimply, VerifiedTextIsNeverStuck};

/// A scan of a text whose bodies break no rule ends, and keeps what kind of value each place holds.
pub fn verified_text_is_never_stuck()
    ensures { VerifiedTextIsNeverStuck }
{}

/// A text that is spelled has only simple instructions inside its parentheses.
pub fn spelled_text_nests_simply()
    ensures { SpelledTextNestsSimply }
{}

/// A scan of a text that is loaded from its bytes ends, and keeps what kind of value each place holds.
pub fn loaded_text_is_never_stuck()
    ensures { LoadedTextIsNeverStuck }
{}

/// Whatever samples, line bytes, inputs and scans have come, in whatever order, with a change to a next text among them or
/// none, the next scan of the text that runs then ends.
pub fn no_run_is_ever_stuck()
    ensures { NoRunIsEverStuck }
{}

/// A store that is carried over to another text holds the kinds that this text declares.
pub fn carried_store_holds_its_kinds()
    ensures { CarriedStoreHoldsItsKinds }
{}

/// At a change an instance of a standard block goes on with all its fields, or starts over with all of them.
pub fn a_standard_block_is_kept_whole()
    ensures { AStandardBlockIsKeptWhole }
{}

/// A text that takes its own place changes nothing.
pub fn a_text_for_itself_is_no_change()
    ensures { ATextForItselfIsNoChange }
{}
