ghost use Rattle.std.specs.Prelude.{◌≡◌};
ghost use Rattle.wc_laws_grammar.specs.Words as words;
ghost use Rattle.wc_text_lines.specs.Meanings.{section_for, unit_for};
ghost use Rattle.wc_model.specs.Definitions.{same_name, name_of, end_var, end_word};

use wc_built_in::{END_FUNCTION_BLOCK, END_PROGRAM, END_VAR, FALSE, Keyword, TRUE, keyword_named};
use wc_lexer::Token;
use wc_model::{Section, UnitKind, Word, is_word};

/// TRUE and FALSE.
pub fn truth(text: &[u8]) -> Option<bool>
    ensures { result ≡ words.found words.truths (name_of text.now) }
{
    if is_word(text, TRUE) {
        Some(true)
    } else if is_word(text, FALSE) {
        Some(false)
    } else {
        None
    }
}

/// Whether the word ends a unit of that kind.
pub fn ends_unit(text: &[u8], kind: UnitKind) -> bool
    ensures { result ≡ same_name (name_of text.now) (end_word kind) }
{
    match kind {
        UnitKind::FunctionBlock => is_word(text, END_FUNCTION_BLOCK),
        UnitKind::Program => is_word(text, END_PROGRAM),
    }
}

/// Whether the word ends a section of declarations.
pub fn ends_section(text: &[u8]) -> bool
    ensures { result ≡ same_name (name_of text.now) end_var }
{
    is_word(text, END_VAR)
}

/// The section that a reserved word begins.
fn section_for(keyword: Keyword) -> Option<Section>
    ensures { result ≡ section_for keyword }
{
    match keyword {
        Keyword::SectionStart(section) => Some(section),
        _ => None,
    }
}

/// The section that the word begins.
pub fn section_named(text: &[u8]) -> Option<Section>
    ensures { result ≡ words.found words.section_words (name_of text.now) }
{
    section_for(keyword_named(text)?)
}

/// The kind of unit that a reserved word begins.
fn unit_for(keyword: Keyword) -> Option<UnitKind>
    ensures { result ≡ unit_for keyword }
{
    match keyword {
        Keyword::UnitStart(kind) => Some(kind),
        _ => None,
    }
}

/// The kind of unit that the word begins.
pub fn unit_kind(text: &[u8]) -> Option<UnitKind>
    ensures { result ≡ words.found words.unit_kinds (name_of text.now) }
{
    unit_for(keyword_named(text)?)
}

/// The token's text with its line.
pub fn word<'a>(token: Token<'a>) -> Word<'a>
    ensures spelled { result.text.now ≡ token.entry.text.now }
    ensures here { result.line ≡ token.entry.line }
{
    Word {
        text: token.text,
        line: token.line,
    }
}
