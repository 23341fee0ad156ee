ghost use Rattle.std.specs.Prelude.{◌≡◌, ◌≤◌, ◌<◌, IfOk, IfSome, None, OnOk, Some};
ghost use Rattle.wc_diag_spans.specs.Lines.{column_at};
ghost use Rattle.wc_diag_spans.specs.OffendingTokens.{HasLaterSpan, HasStop};
ghost use Rattle.wc_diag_stops.specs.ReadingSpans.{AreReadByPlaces, IsAt};
ghost use Rattle.wc_model.specs.Language.Views.{text_view};

use crate::diagnostic::Diagnostic;
use crate::lines::column_at;
use std::alloc::{AllocError, Global};
use wc_built_in::{Keyword, keyword_named, standard_block};
use wc_diag_advice::advice_at;
use wc_diag_mistakes::{
    RefusedText, Sentence, block_line, difference_said, follows_leaving, is_unreached, mistake_at,
    said_text, words,
};
use wc_diag_places::{SpannedSource, read_by_places, span_in};
use wc_diag_stops::{
    BYTE_ORDER_MARK, Brought, LabelPaths, PathToLabel, RefusalSpan, bytes_at, case_of_lexeme,
    following, prefix, stop_of,
};
use wc_diag_texts::{Case, Expected, Mistake, Paths, paths_text, sentence_of};
use wc_lexer::{Shape, Token};
use wc_model::{Fault, Kind, Unit, is_word};

/// In which way a token can't be where it is.
fn case_of_token(token: &[u8], expected: Expected) -> Case {
    match (keyword_named(token), token.first(), expected) {
        (Some(Keyword::Kept), _, _) => Case::LeftOut,
        (_, _, Expected::LabelColon) => Case::NoOperator,
        (Some(Keyword::UnitStart(_)), _, _) => Case::UnitWord,
        (_, Some(b')'), _) => Case::Closing,
        (_, Some(b'\n'), _) => Case::LineEnd,
        (_, _, Expected::CommaOrColon) if is_word(b"PERSISTENT", token) => Case::LeftOut,
        _ => Case::Plain,
    }
}

/// In which way a rule is broken at the slice of a text.
fn case_at(refused: &RefusedText<'_, '_>) -> Case {
    let (number, token, span) = (refused.number, refused.token(), refused.span);
    match number {
        101..=107 => case_of_lexeme(number, refused.lexeme, token),
        201..=208 => case_of_token(token, span.expected),
        401
            if refused.names_one()
                && (standard_block(token).is_some()
                    || refused.is_called() && block_line(refused.tokens, token).is_some()) => {
            Case::BlockType
        }
        _ => span.case,
    }
}

/// The case of which the sentence speaks, that of the mistake if it has one of its own; and the sentence, if the number's does not say all.
fn spoken_of(number: u16, case: Case, mistake: Mistake) -> (Case, Option<&'static str>) {
    match (mistake.case, case) {
        (Case::LeftOut, _) | (Case::Lasting, Case::LeftOut) => (case, sentence_of(number, case)),
        _ if mistake.sentence.is_empty() => (case, sentence_of(number, case)),
        _ => (mistake.case, Some(mistake.sentence)),
    }
}

/// The number of bytes with which the character at a place of a text begins, if the text goes on with one above ASCII.
fn character_length(text: &[u8]) -> usize {
    let mut lengths = 2..5;
    let found = lengths.find(|length| str::from_utf8(prefix(text, *length)).is_ok());
    found.unwrap_or(1)
}

/// The number of bytes of a slice that are quoted: none if its sentence is given alone.
fn quoted_length(refused: &RefusedText<'_, '_>, spoken: Case, sentence: Option<&str>) -> usize {
    let span = refused.span;
    match (refused.number, spoken) {
        (101, Case::ByteOrderMark) => BYTE_ORDER_MARK.len(),
        (101, Case::NoBreakSpace) => 0,
        (101, Case::Byte(128..)) => character_length(refused.lexeme),
        (201, Case::LineEnd | Case::Lasting) | (202..=208, _) => 0,
        (403, Case::AtLabel | Case::Unreached | Case::Plain) => 0,
        _ if span.below.is_some() || sentence.is_none() => 0,
        _ => span.length,
    }
}

/// The line of the innermost parenthesis that is open after some tokens, if one is. The tokens are passed backwards, and no further
/// than to that parenthesis.
fn open_since(tokens: &[Token<'_>]) -> Option<u32> {
    let mut closed = 0_usize;
    for token in tokens.iter().rev() {
        match token.shape {
            Shape::Closing => closed = closed.saturating_add(1),
            Shape::Opening if closed == 0 => return Some(token.line),
            Shape::Opening => closed = closed.saturating_sub(1),
            _ => {}
        }
    }
    None
}

/// What follows the sentence of a refusal on a line: which parenthesis is open, where the first of two is.
fn detail_of(refused: &RefusedText<'_, '_>) -> Sentence {
    match (refused.number, refused.span.first) {
        (205, _) => {
            let line = open_since(refused.before())?;
            Some(format!(in refused.alloc; "the parenthesis of line {line} is open"))
        }
        (406, _) | (_, 0) => None,
        (_, line) => Some(format!(in refused.alloc; "the first is on line {line}")),
    }
}

/// What a path brings to a label, in words: something else than the other, if that is not sure.
fn words_brought(tokens: &[Token<'_>], path: PathToLabel) -> &'static str {
    match (path.brought, is_unreached(tokens, path.line)) {
        (Brought::Kind(Kind::Bool), false) => "a BOOL",
        (Brought::Kind(Kind::Dint), false) => "a DINT",
        (Brought::Kind(Kind::Time), false) => "a TIME",
        (Brought::Nothing, false) => "no value",
        (Brought::Kind(Kind::Bool), true) => "a BOOL, but is never reached",
        (Brought::Kind(Kind::Dint), true) => "a DINT, but is never reached",
        (Brought::Kind(Kind::Time), true) => "a TIME, but is never reached",
        (Brought::Nothing, true) => "no value and is never reached",
        (Brought::Unsure, _) => "another type, or no value",
    }
}

/// Which paths to the label before the slice bring what, if that is sure.
fn label_said(refused: &RefusedText<'_, '_>) -> Sentence {
    let (tokens, found) = (refused.tokens, refused.label_before()?);
    let label = words(found.text).unwrap_or("");
    let paths = match refused.span.paths {
        Some(LabelPaths { first, other }) => match (other, first.brought) {
            (Some(other), _) => {
                let brought = words_brought(tokens, first);
                let different = words_brought(tokens, other);
                Paths::Two(label, first.line, brought, other.line, different)
            }
            (None, Brought::Nothing) => Paths::Empty(label, first.line),
            (None, _) => Paths::Unsure(label, found.line),
        },
        None if follows_leaving(tokens, found.line) => Paths::None(label),
        None => return None,
    };
    Some(paths_text(refused.alloc, paths))
}

/// What is said in place of the sentence, with the available values.
fn said_there(refused: &RefusedText<'_, '_>, case: Case, mistake: Case) -> Sentence {
    match mistake {
        Case::LabelAbove => {
            let line = refused.span.first;
            Some(format!(in refused.alloc; "is the label of line {line}, above this jump"))
        }
        Case::AtLabel => label_said(refused),
        Case::BlockBelow => {
            let line = block_line(refused.tokens, refused.token())?;
            Some(format!(in refused.alloc;
                "is a function block that is declared below, on line {line}"
            ))
        }
        _ => difference_said(refused, case),
    }
}

/// What is said in place of the sentence, of an offending slice on a line below.
fn said_below(refused: &RefusedText<'_, '_>, line: u32, sentence: &str) -> Sentence {
    let word = str::from_utf8(refused.offending()).unwrap_or("");
    let (point, field) = match words(refused.field()) {
        Some(field) => (".", field),
        None => ("", ""),
    };
    Some(format!(in refused.alloc; "`{word}{point}{field}` (line {line}) {sentence}"))
}

/// What is said in place of the sentence, also of an offending slice on a line below.
fn said_of(
    refused: &RefusedText<'_, '_>,
    said: Sentence,
    sentence: Option<&'static str>,
) -> Sentence {
    let Some(below) = refused.span.below else {
        return said;
    };
    match said {
        Some(Ok(said)) => said_below(refused, below.line, &said),
        Some(Err(error)) => Some(Err(error)),
        None => said_below(refused, below.line, sentence?),
    }
}

/// Says what is wrong with a slice of a text: what is found is the number of bytes to quote.
fn say_of_span(
    diagnostic: &mut Diagnostic,
    refused: &RefusedText<'_, '_>,
) -> Result<usize, AllocError>
    ensures span { diagnostic.new.span ≡ diagnostic.old.span }
    ensures line { diagnostic.new.line ≡ diagnostic.old.line }
{
    let case = case_at(refused);
    let mistake = mistake_at(refused, case);
    // what could be there, if that is what is wrong: not after a word that is left out, nor a point after a NOT
    let expected = match mistake.case {
        Case::Lasting => Expected::Nothing,
        Case::NegatedOperand => Expected::LineEnd,
        _ => refused.span.expected,
    };
    let (spoken, own) = spoken_of(refused.number, case, mistake);
    let there = said_there(refused, spoken, mistake.case);
    let (sentence, detail) = match said_of(refused, there, own) {
        Some(said) => (Some(""), said?),
        None => (own, said_text(refused.alloc, detail_of(refused))?),
    };
    diagnostic.expected = expected;
    diagnostic.sentence = sentence;
    diagnostic.detail = detail;
    diagnostic.hint = mistake.hint;
    diagnostic.advice = said_text(refused.alloc, advice_at(refused, mistake))?;
    Ok(quoted_length(refused, spoken, own))
}

/// Points to the slice at which a pass refuses a text, and says what is wrong with it.
fn point_to_span(
    diagnostic: &mut Diagnostic,
    text: &[u8],
    refused: &RefusedText<'_, '_>,
) -> Result<(), AllocError>
    ensures span { diagnostic.new.span
        ≡ Some (record {
          start = column_at text.now refused.now.span.start;
          length = refused.now.span.length;
        }) }
    ensures line { diagnostic.new.line ≡ diagnostic.old.line }
    ensures quoted { OnOk result
        (IsAt text.now refused.now.span.start diagnostic.new.subject.items) }
{
    let span = refused.span;
    diagnostic.point(column_at(text, span.start), span.length);
    let length = say_of_span(diagnostic, refused)?;
    let sentence = diagnostic.sentence;
    diagnostic.report(bytes_at(text, span.start, length), sentence)
}

/// What was found, if it is the fault of that number on that line.
fn fault_of(
    found: Option<RefusalSpan>,
    number: u16,
    place: u32,
) -> Result<Option<RefusalSpan>, AllocError>
    ensures { IfOk result (λ kept. IfSome kept
        (λ span. (found ≡ Some span) × (span.fault ≡ Fault.Refused number place))) }
{
    let wanted = Fault::Refused { number, place };
    match found {
        Some(span) if span.fault == wanted => Ok(Some(span)),
        Some(span) if span.fault == Fault::Memory => Err(AllocError),
        _ => Ok(None),
    }
}

/// Finds the fault of a text that is not read on its line: where its reading stops.
fn find_stop(
    alloc: Global,
    diagnostic: &mut Diagnostic,
    text: &[u8],
    number: u16,
) -> Result<(), AllocError>
    requires { diagnostic.old.span ≡ None }
    ensures { IfOk result (λ _. HasStop text.now number diagnostic.old.line diagnostic.new) }
{
    let Some(stopped) = stop_of(alloc, text)? else {
        return Ok(());
    };
    let Some(span) = fault_of(Some(stopped.span), number, diagnostic.line)? else {
        return Ok(());
    };
    // What can't be cut into tokens goes on from the malformed lexeme.
    let rest = if number < 200 { span.start } else { text.len() };
    let lexeme = following(text, rest);
    let refused = RefusedText::new(alloc, &stopped.tokens, lexeme, &[], number, span);
    point_to_span(diagnostic, text, &refused)
}

/// Finds the fault of a text that was read on its line: where a later pass refuses it.
fn find_later_fault<'a>(
    alloc: Global,
    diagnostic: &mut Diagnostic,
    text: &'a [u8],
    read: &SpannedSource<'a>,
    number: u16,
) -> Result<(), AllocError>
    requires none { diagnostic.old.span ≡ None }
    requires read { AreReadByPlaces text.now read.now.tokens.items (text_view read.now.source) }
    ensures { IfOk result
        (λ _. HasLaterSpan text.now number diagnostic.old.line diagnostic.new) }
{
    let Some(span) = fault_of(span_in(alloc, read), number, diagnostic.line)? else {
        return Ok(());
    };
    let refused = RefusedText::new(alloc, &read.tokens, b"", &read.source.units, number, span);
    point_to_span(diagnostic, text, &refused)
}

/// Finds the fault of a program's text on its line: where a pass refuses it.
pub(crate) fn find_program_fault(
    alloc: Global,
    diagnostic: &mut Diagnostic,
    text: &[u8],
    number: u16,
) -> Result<(), AllocError>
    requires { diagnostic.old.span ≡ None }
    ensures stopped { number < 300
        → IfOk result (λ _. HasStop text.now number diagnostic.old.line diagnostic.new) }
    ensures offending { 300 ≤ number
        → IfOk result (λ _. HasLaterSpan text.now number diagnostic.old.line diagnostic.new) }
{
    if diagnostic.line == 0 {
        return Ok(());
    }
    if number < 300 {
        return find_stop(alloc, diagnostic, text, number);
    }
    match read_by_places(alloc, text) {
        Ok(read) => find_later_fault(alloc, diagnostic, text, &read, number),
        Err(Fault::Memory) => Err(AllocError),
        Err(_) => Ok(()),
    }
}
