ghost use Rattle.std.specs.Prelude.{◌≡◌, ◌++◌, IfOk, option_copied};
ghost use Rattle.wc_diag_messages.specs.Warned.{IsPlaced, KnowsWarning, has_there, is_called, is_warned, marked_span, named_text, shown_line, start_on, warned_token};
ghost use Rattle.wc_diag_texts.specs.Plain.{shown_text};

use crate::parts::{Parts, Severity};
use crate::snippets::bytes_at;
use std::alloc::{AllocError, Global};
use wc_diag_spans::{Diagnostic, Span, column_at, line_at};
use wc_diag_texts::{Message, shown_text, warning_of};
use wc_diag_warnings::Warning;
use wc_lexer::Token;

/// The line of that number, without its end; empty if the text has none.
fn shown_line(text: &[u8], line: u32) -> &[u8]
    ensures { result.now ≡ shown_line line text.now }
{
    line_at(text, line).unwrap_or(b"")
}

/// Where a token begins on its line, of which this is shown.
fn start_on(text: &[u8], token: &Token<'_>, line: &[u8]) -> usize
    ensures { result ≡ start_on text.now token.now line.now }
{
    column_at(text, token.start as usize).min(line.len())
}

/// Whether a token is spelled as that name; with no name, any token.
fn is_called(name: &[u8], token: &Token<'_>) -> bool
    ensures { result ≡ is_called name.now token.now }
{
    name.is_empty() || token.text == name
}

/// Whether a line has these bytes there.
fn has_there(line: &[u8], start: usize, name: &[u8]) -> bool
    ensures { result ≡ has_there line.now start name.now }
{
    bytes_at(line, start, name.len()) == name
}

/// Whether a warning may be about a token: it is on the warning's line or below, and has its name, also in the line that is shown.
fn is_warned(text: &[u8], warning: &Warning<'_>, token: &Token<'_>) -> bool
    ensures { result ≡ is_warned text.now warning.now token.now }
{
    if token.line < warning.line || !is_called(warning.name, token) {
        return false;
    }
    let line = shown_line(text, token.line);
    has_there(line, start_on(text, token, line), warning.name)
}

/// The token that a warning is about: the first of its line, or below it as in a list over lines.
fn warned_token<'a, 't>(
    tokens: &'t [Token<'a>],
    text: &[u8],
    warning: &Warning<'_>,
) -> Option<&'t Token<'a>>
    ensures { option_copied result ≡ warned_token text.now warning.now tokens.now }
{
    tokens.iter().find(|token| is_warned(text, warning, token))
}

/// What is marked of a line from a byte on: a name; with no name the rest of the line.
fn marked_span(name: &[u8], start: usize, line: &[u8]) -> Span
    ensures { result ≡ marked_span name.now start line.now }
{
    let length = match name {
        [] => line.len().saturating_sub(start),
        _ => name.len(),
    };
    Span { start, length }
}

/// The sentence of a warning, and what to write instead.
fn words_of(number: u8) -> (&'static str, &'static str) {
    warning_of(u16::from(number)).map_or(("is suspicious", ""), |entry| (entry.quoted, entry.hint))
}

/// What is suspicious, in words: the name, and what is said of it.
fn warning_sentence(alloc: Global, name: &[u8], sentence: &str) -> Result<Message, AllocError>
    ensures { IfOk result (λ reported. reported.bytes.items
        ≡ named_text name.now ++ shown_text sentence.now) }
{
    let mut message = Message::new(alloc);
    if !name.is_empty() {
        message.quote(name)?;
        message.say(" ")?;
    }
    message.say(sentence)?;
    Ok(message)
}

/// The line that is shown of a warning, with its offending slice.
fn diagnostic_of(
    alloc: Global,
    text: &[u8],
    tokens: &[Token<'_>],
    warning: &Warning<'_>,
) -> Result<Diagnostic, AllocError>
    ensures { IfOk result (λ diagnostic. IsPlaced text.now warning.now
        (warned_token text.now warning.now tokens.now) diagnostic) }
{
    let found = warned_token(tokens, text, warning);
    let line = found.map_or(warning.line, |token| token.line);
    let shown = shown_line(text, line);
    let span = found.map(|token| marked_span(warning.name, start_on(text, token, shown), shown));
    let mut diagnostic = Diagnostic::new(alloc, line);
    diagnostic.span = span;
    diagnostic.shown = shown.to_vec(alloc)?;
    Ok(diagnostic)
}

/// What is said of a warning of a text.
pub(crate) fn warning_parts(
    alloc: Global,
    text: &[u8],
    tokens: &[Token<'_>],
    warning: &Warning<'_>,
) -> Result<Parts, AllocError>
    ensures { IfOk result (λ parts. KnowsWarning text.now tokens.now warning.now parts) }
{
    let diagnostic = diagnostic_of(alloc, text, tokens, warning)?;
    let (sentence, hint) = words_of(warning.number);
    Ok(Parts {
        severity: Severity::Warning,
        number: u16::from(warning.number),
        line: diagnostic.line,
        place: Message::new(alloc),
        reported: warning_sentence(alloc, warning.name, sentence)?,
        expected: Message::new(alloc),
        advice: shown_text(alloc, hint.as_bytes())?,
        diagnostic,
    })
}
