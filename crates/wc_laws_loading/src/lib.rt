//! Laws of loading a text from its bytes: it is loaded or refused, never both, as one text, with one refusal, and is no larger
//! than its bytes. Each function has an empty body: its clause is the law.
#![tactic(auto)]

ghost use Rattle.wc_laws_loading.specs.Laws.{LoadedOrRefused, NeverBoth, OneAnswer, OneRefusal, OneText, LoadedTextsAreSmall, TokensAreFew, EachUnitHasOneWorstPath, OneReport};

/// Any bytes are loaded as a text, or refused with a number and a line.
pub fn bytes_are_loaded_or_refused()
    ensures { LoadedOrRefused }
{}

/// Bytes that are loaded are not refused.
pub fn what_is_loaded_is_not_refused()
    ensures { NeverBoth }
{}

/// Bytes have one refusal at most: one number, at one line.
pub fn one_refusal()
    ensures { OneRefusal }
{}

/// Bytes are loaded as one text at most.
pub fn one_loaded_text()
    ensures { OneText }
{}

/// A job of any bytes has one answer: so two runs of it in which no device and no growth of memory failed write the same bytes, on
/// whatever machine.
pub fn a_job_has_one_answer()
    ensures { OneAnswer }
{}

/// A text has at most as many tokens as bytes.
pub fn tokens_are_few()
    ensures { TokensAreFew }
{}

/// A text that is loaded has at most 65536 bytes and 64 units; its tree has at most as many parts as the text has bytes, and so
/// have the flat lines of its bodies together.
pub fn loaded_texts_are_small()
    ensures { LoadedTextsAreSmall }
{}

/// The lines of a unit's worst path are one list: so a check has no choice of a path.
pub fn each_unit_has_one_worst_path()
    ensures { EachUnitHasOneWorstPath }
{}

/// A text that is loaded has one report, with paths and without: so two checks of it write the same
/// bytes, on whatever machine.
pub fn a_text_has_one_report()
    ensures { OneReport }
{}
