ghost use Rattle.std.specs.Prelude.{◌≡◌, IfOk, OnOk, drop, take};
ghost use Rattle.wc_diag_messages.specs.Snippets.{bar_line, columns, snippet_text, first_shown, marked_text, marks, quoted_line, shown_part, span_start};
ghost use Rattle.wc_diag_messages.specs.Locations.{Writes, margin_text};

use crate::parts::Parts;
use std::alloc::{AllocError, Global};
use wc_diag_spans::Span;
use wc_diag_texts::{Message, characters, passes, with_spaces};

/// The number of bytes of a line, or of what is quoted, that are shown at most.
pub(crate) const WIDEST: usize = 120;

/// The bytes from a place on, at most that number.
pub(crate) fn bytes_at(text: &[u8], start: usize, length: usize) -> &[u8]
    ensures { result.now ≡ take length (drop start text.now) }
{
    let (_, rest) = text.split_at(start.min(text.len()));
    let (first, _) = rest.split_at(length.min(rest.len()));
    first
}

/// Where the offending slice starts; the line's start if there is none.
fn span_start(span: Option<Span>) -> usize
    ensures { result ≡ span_start span }
{
    span.map_or(0, |span| span.start)
}

/// The first byte of a line that is shown.
fn first_shown(line: &[u8], start: usize) -> usize
    ensures { result ≡ first_shown line.now start }
{
    if line.len() > WIDEST {
        start.saturating_sub(WIDEST / 2)
    } else {
        0
    }
}

/// The part of a line that is shown.
fn shown_part(line: &[u8], span: Option<Span>) -> &[u8]
    ensures { result.now ≡ shown_part line.now span }
{
    bytes_at(line, first_shown(line, span_start(span)), WIDEST)
}

/// The number of columns that bytes of a line take, if it is shown as it is, or with escapes.
fn columns(alloc: Global, is_text: bool, bytes: &[u8]) -> Result<usize, AllocError>
    ensures { IfOk result (λ count. count ≡ columns is_text bytes.now) }
{
    if is_text {
        return Ok(characters(bytes));
    }
    let mut escaped = Message::new(alloc);
    escaped.add_escaped(bytes)?;
    Ok(escaped.as_bytes().len())
}

/// Writes a mark under each column that some bytes of what is shown take.
fn write_marks(
    alloc: Global,
    message: &mut Message,
    part: &[u8],
    start: usize,
    length: usize,
) -> Result<(), AllocError>
    ensures { OnOk result (Writes message.old message.new (marks part.now start length)) }
{
    let spaced = with_spaces(alloc, part)?;
    let is_text = passes(&spaced);
    let before = columns(alloc, is_text, bytes_at(part, 0, start))?;
    let offending = columns(alloc, is_text, bytes_at(part, start, length))?;
    message.repeat(b' ', before)?;
    message.repeat(b'^', offending.max(1))
}

/// The marks under the offending slice of a line, and what could be there.
fn marks_under(
    alloc: Global,
    line: &[u8],
    span: Option<Span>,
    words: &Message,
) -> Result<Message, AllocError>
    ensures { IfOk result (λ message. message.bytes.items
        ≡ marked_text line.now span words.now.bytes.items) }
{
    let mut message = Message::new(alloc);
    let Some(offending) = span else {
        return Ok(message);
    };
    let start = offending
        .start
        .saturating_sub(first_shown(line, offending.start));
    let part = shown_part(line, span);
    message.say(" ")?;
    write_marks(alloc, &mut message, part, start, offending.length)?;
    message.say_before(" expected ", words)?;
    Ok(message)
}

/// Writes a line that has no number.
fn write_bar(message: &mut Message, margin: &Message, text: &Message) -> Result<(), AllocError>
    ensures { OnOk result
        (Writes message.old message.new (bar_line margin.now.bytes.items text.now.bytes.items)) }
{
    message.append(margin)?;
    message.say(" |")?;
    message.append(text)?;
    message.end_line()
}

/// Writes a line after its number.
fn write_quoted(message: &mut Message, number: u32, part: &[u8]) -> Result<(), AllocError>
    ensures { OnOk result (Writes message.old message.new (quoted_line number part.now)) }
{
    message.count(number as usize)?;
    message.say(" | ")?;
    message.add(part)?;
    message.end_line()
}

/// Writes the line that is referred to, with its marks, if it is known.
pub(crate) fn write_snippet(
    alloc: Global,
    message: &mut Message,
    margin: &Message,
    parts: &Parts,
) -> Result<(), AllocError>
    requires { margin.now.bytes.items ≡ margin_text parts.now.line }
    ensures { OnOk result (Writes message.old message.new
        (snippet_text parts.now.line parts.now.diagnostic.shown.items parts.now.diagnostic.span
        parts.now.expected.bytes.items)) }
{
    let line = &parts.diagnostic.shown;
    if line.is_empty() {
        return Ok(());
    }
    let span = parts.diagnostic.span;
    let marked = marks_under(alloc, line, span, &parts.expected)?;
    write_bar(message, margin, &Message::new(alloc))?;
    write_quoted(message, parts.line, shown_part(line, span))?;
    write_bar(message, margin, &marked)
}
