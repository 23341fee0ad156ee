ghost use Rattle.std.specs.Prelude.{IfOk, OnOk};
ghost use Rattle.wc_diag_messages.specs.Locations.{Writes};
ghost use Rattle.wc_diag_messages.specs.Explanations.{IsKnown, QuotesAndSays, left_out_text, quoted_text};

use crate::placing::{named_line, place_words};
use crate::snippets::{WIDEST, bytes_at};
use std::alloc::{AllocError, Global};
use wc_diag_spans::{Diagnostic, RefusalDetails, find};
use wc_diag_texts::{Message, entry_of, shown_text, words_of};

/// Whether something is refused, or accepted and suspicious.
#[derive(Clone, Copy)]
pub enum Severity {
    Error,
    Warning,
}

/// What is said of a refusal or a warning, in whatever format.
#[derive(Drop)]
pub(crate) struct Parts {
    pub(crate) severity: Severity,
    pub(crate) number: u16,
    /// The line that is shown with its offending slice.
    pub(crate) diagnostic: Diagnostic,
    /// The line in what is named; 0 if it is not known.
    pub(crate) line: u32,
    /// The place by which a refusal is counted, if it is not that line.
    pub(crate) place: Message,
    /// What is wrong, in words.
    pub(crate) reported: Message,
    /// What could be there; empty if that is not known.
    pub(crate) expected: Message,
    /// What to write instead; empty if that is not known.
    pub(crate) advice: Message,
}

/// What is said of what is quoted.
fn sentence(number: u16, diagnostic: &Diagnostic) -> &'static str {
    match (diagnostic.sentence, entry_of(number)) {
        (Some(sentence), _) => sentence,
        (None, Some(entry)) => entry.sentence,
        (None, None) => "a rule is broken",
    }
}

/// What to write in place of what is refused; nothing if that is not known.
fn hint<'a>(number: u16, diagnostic: &'a Diagnostic) -> &'a str {
    if !diagnostic.advice.is_empty() {
        return &diagnostic.advice;
    }
    match entry_of(number) {
        Some(entry) if diagnostic.hint.is_empty() => entry.hint,
        _ => diagnostic.hint,
    }
}

/// Writes the number of bytes of a slice of that length left out of a quotation, if any are.
fn write_left_out(message: &mut Message, length: usize) -> Result<(), AllocError>
    ensures { OnOk result (Writes message.old message.new (left_out_text length)) }
{
    if length <= WIDEST {
        return Ok(());
    }
    message.say("(and ")?;
    message.count(length - WIDEST)?;
    message.say(" bytes more) ")
}

/// Writes the slice of the text with which a headline begins, if there is one.
fn write_subject(message: &mut Message, subject: &[u8]) -> Result<(), AllocError>
    ensures { OnOk result (Writes message.old message.new (quoted_text subject.now)) }
{
    if subject.is_empty() {
        return Ok(());
    }
    message.quote(bytes_at(subject, 0, WIDEST))?;
    message.say(" ")?;
    write_left_out(message, subject.len())
}

/// What is wrong, in words: the slice that is quoted, what is said of it, and what follows after a colon, if there is something.
fn reported_of(alloc: Global, number: u16, diagnostic: &Diagnostic) -> Result<Message, AllocError>
    ensures { IfOk result
        (λ reported. QuotesAndSays diagnostic.now.subject.items reported.bytes.items) }
{
    let sentence = sentence(number, diagnostic);
    let mark = if sentence.is_empty() { "" } else { ": " };
    let detail = shown_text(alloc, diagnostic.detail.as_bytes())?;
    let mut message = Message::new(alloc);
    write_subject(&mut message, &diagnostic.subject)?;
    message.say(sentence)?;
    message.say_before(mark, &detail)?;
    Ok(message)
}

/// What is said of a refusal.
pub(crate) fn parts_of(alloc: Global, refusal: &RefusalDetails<'_>) -> Result<Parts, AllocError>
    ensures { IfOk result (λ parts. IsKnown refusal.now parts) }
{
    let number = refusal.number;
    let diagnostic = find(alloc, refusal)?;
    Ok(Parts {
        severity: Severity::Error,
        number,
        line: named_line(refusal, diagnostic.line),
        place: place_words(alloc, refusal)?,
        reported: reported_of(alloc, number, &diagnostic)?,
        expected: shown_text(alloc, words_of(diagnostic.expected).as_bytes())?,
        advice: shown_text(alloc, hint(number, &diagnostic).as_bytes())?,
        diagnostic,
    })
}
