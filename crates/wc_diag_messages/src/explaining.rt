ghost use Rattle.std.specs.Prelude.{◌≡◌, IfOk, OnOk};
ghost use Rattle.wc_diag_messages.specs.Formats.{IsCalmIn, IsPlainIn, IsShortLine, Prints, Reports, position_text};
ghost use Rattle.wc_diag_messages.specs.Explanations.{IsPrintable, help_line, long_text, numbered, opening, page_opening};
ghost use Rattle.wc_diag_messages.specs.Locations.{Writes};
ghost use Rattle.wc_diag_messages.specs.Warned.{Warns};
ghost use Rattle.wc_diag_spans.specs.Finds.{IsWithin};

use crate::object::object;
use crate::parts::{Parts, Severity, parts_of};
use crate::placing::{first_column, margin, write_line, write_place_line};
use crate::snippets::write_snippet;
use crate::warned_parts::warning_parts;
use std::alloc::{AllocError, Global};
use wc_diag_spans::RefusalDetails;
use wc_diag_texts::{Format, Message};
use wc_diag_warnings::Warning;
use wc_lexer::Token;

/// What comes before the number: that of a warning is after its W.
fn opening(severity: Severity) -> &'static str
    ensures { result.now ≡ opening severity }
{
    match severity {
        Severity::Error => "error[",
        Severity::Warning => "warning[W",
    }
}

/// Writes the number.
fn write_number(message: &mut Message, severity: Severity, number: u16) -> Result<(), AllocError>
    ensures { OnOk result (Writes message.old message.new (numbered severity number)) }
{
    message.say(opening(severity))?;
    message.count(number as usize)?;
    message.say("]: ")
}

/// What comes before the number of the page that says more.
fn page_opening(severity: Severity) -> &'static str
    ensures { result.now ≡ page_opening severity }
{
    match severity {
        Severity::Error => " (run `narbeddo explain ",
        Severity::Warning => " (run `narbeddo explain W",
    }
}

/// Writes what to write instead, and the page that says more.
fn write_help(message: &mut Message, parts: &Parts) -> Result<(), AllocError>
    ensures { OnOk result (Writes message.old message.new (help_line parts.now)) }
{
    message.say("help: ")?;
    message.append(&parts.advice)?;
    message.say(page_opening(parts.severity))?;
    message.count(parts.number as usize)?;
    message.say("` for more)")?;
    message.end_line()
}

/// What is wrong, where, the line with its offending slice, and what to write instead.
fn long(alloc: Global, name: &[u8], parts: &Parts) -> Result<Message, AllocError>
    requires { IsWithin parts.now.diagnostic }
    ensures { IfOk result (λ message. message.bytes.items ≡ long_text name.now parts.now) }
{
    let margin = margin(alloc, parts.line)?;
    let mut message = Message::new(alloc);
    write_number(&mut message, parts.severity, parts.number)?;
    message.append(&parts.reported)?;
    message.end_line()?;
    write_place_line(&mut message, &margin, name, parts)?;
    write_snippet(alloc, &mut message, &margin, parts)?;
    write_help(&mut message, parts)?;
    Ok(message)
}

/// Writes the line and the column, if the line is known, else the place by which a refusal is counted.
fn write_position(message: &mut Message, parts: &Parts) -> Result<(), AllocError>
    requires { IsWithin parts.now.diagnostic }
    ensures { OnOk result (Writes message.old message.new (position_text parts.now)) }
{
    if parts.line == 0 {
        return message.say_before(":", &parts.place);
    }
    write_line(message, parts.line as usize)?;
    write_line(message, first_column(&parts.diagnostic))
}

/// Where it is, what is wrong and what to write instead, on one line, as editors read it.
fn short(alloc: Global, name: &[u8], parts: &Parts) -> Result<Message, AllocError>
    requires { IsPrintable parts.now }
    ensures { IfOk result (λ message. IsShortLine name.now parts.now message.bytes.items) }
{
    let mut message = Message::new(alloc);
    message.add(name)?;
    write_position(&mut message, parts)?;
    message.say(": ")?;
    write_number(&mut message, parts.severity, parts.number)?;
    message.append(&parts.reported)?;
    message.say_before("; help: ", &parts.advice)?;
    message.end_line()?;
    Ok(message)
}

/// What is said of what has that name, in that format.
fn formatted_message(
    alloc: Global,
    format: Format,
    name: &[u8],
    parts: &Parts,
) -> Result<Vec<u8>, AllocError>
    requires { IsPrintable parts.now }
    ensures all { IfOk result (λ bytes. Prints format name.now parts.now bytes.items) }
    ensures plain { IfOk result (λ bytes. IsPlainIn format bytes.items) }
    ensures calm { IfOk result (λ bytes. IsCalmIn format bytes.items) }
{
    match format {
        Format::Long => Ok(long(alloc, name, parts)?.into_bytes()),
        Format::Short => Ok(short(alloc, name, parts)?.into_bytes()),
        Format::Json => object(alloc, name, parts),
    }
}

/// What is said of a refusal, in that format; each line ends with a line feed. The error is out of memory.
pub fn refusal_message(
    alloc: Global,
    format: Format,
    refusal: &RefusalDetails<'_>,
) -> Result<Vec<u8>, AllocError>
    ensures all { IfOk result (λ bytes. Reports format refusal.now bytes.items) }
    ensures plain { IfOk result (λ bytes. IsPlainIn format bytes.items) }
    ensures calm { IfOk result (λ bytes. IsCalmIn format bytes.items) }
{
    let parts = parts_of(alloc, refusal)?;
    formatted_message(alloc, format, refusal.name, &parts)
}

/// What is said of a warning of a file's text, in that format: its number, the file, the line and the column of its token, its name
/// and the line of the text. `tokens` are those of the text. Each line ends with a line feed. The error is out of memory.
pub fn warning_message(
    alloc: Global,
    format: Format,
    file: &[u8],
    text: &[u8],
    tokens: &[Token<'_>],
    warning: &Warning<'_>,
) -> Result<Vec<u8>, AllocError>
    ensures all { IfOk result
        (λ bytes. Warns format file.now text.now tokens.now warning.now bytes.items) }
    ensures plain { IfOk result (λ bytes. IsPlainIn format bytes.items) }
    ensures calm { IfOk result (λ bytes. IsCalmIn format bytes.items) }
{
    let parts = warning_parts(alloc, text, tokens, warning)?;
    formatted_message(alloc, format, file, &parts)
}
