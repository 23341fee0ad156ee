ghost use Rattle.std.specs.Prelude.{◌≡◌, IfOk, OnOk};
ghost use Rattle.wc_diag_spans.specs.Finds.{IsWithin};
ghost use Rattle.wc_diag_messages.specs.Explanations.{named_line, place_line};
ghost use Rattle.wc_diag_messages.specs.Locations.{Writes, alongside_text, counted_name, counted_text, first_column, heading, in_brackets, line_text, margin_text, place_text, row_text, section_text};

use crate::parts::Parts;
use std::alloc::{AllocError, Global};
use wc_diag_spans::{Diagnostic, RefusalDetails};
use wc_diag_texts::{Message, column_of};
use wc_job::Input;

/// The line in what is named, if this one was found in the text; 0 if it is not known.
pub(crate) fn named_line(refusal: &RefusalDetails<'_>, found: u32) -> u32
    ensures { result ≡ named_line refusal.now found }
{
    if found > 0 {
        return refusal.above.saturating_add(found);
    }
    match refusal.part {
        Input::Program | Input::Next if refusal.place > 0 => {
            refusal.above.saturating_add(refusal.place)
        }
        _ => 0,
    }
}

/// As many spaces as a line's number has digits.
pub(crate) fn margin(alloc: Global, line: u32) -> Result<Message, AllocError>
    ensures { IfOk result (λ message. message.bytes.items ≡ margin_text line) }
{
    let mut number = Message::new(alloc);
    number.count(line as usize)?;
    let mut message = Message::new(alloc);
    message.repeat(b' ', number.as_bytes().len())?;
    Ok(message)
}

/// Writes a line, or a column, after what it is in, if it is known.
pub(crate) fn write_line(message: &mut Message, line: usize) -> Result<(), AllocError>
    ensures { OnOk result (Writes message.old message.new (line_text line)) }
{
    if line == 0 {
        return Ok(());
    }
    message.say(":")?;
    message.count(line)
}

/// The column of the offending slice, counted from 1; 0 if there is none.
pub(crate) fn first_column(diagnostic: &Diagnostic) -> usize
    requires { IsWithin diagnostic.now }
    ensures { result
        ≡ first_column diagnostic.now.shown.items diagnostic.now.span }
{
    match diagnostic.span {
        Some(span) => column_of(&diagnostic.shown, span.start),
        None => 0,
    }
}

/// The line with which a section of a job begins.
fn heading(part: Input) -> &'static str
    ensures { result.now ≡ heading part }
{
    match part {
        Input::Job | Input::Names => "",
        Input::Plate => "@plate",
        Input::Program => "@program",
        Input::Next => "@next",
        Input::Log => "@log",
    }
}

/// What is counted in a part.
fn counted_name(part: Input) -> &'static str
    ensures { result.now ≡ counted_name part }
{
    match part {
        Input::Log => "row ",
        _ => "line ",
    }
}

/// Writes a line or a row by its number.
fn write_counted(message: &mut Message, part: Input, place: u32) -> Result<(), AllocError>
    ensures { OnOk result (Writes message.old message.new (counted_text part place)) }
{
    message.say(counted_name(part))?;
    message.count(place as usize)
}

/// Writes a place in a section of a job.
fn write_in_section(message: &mut Message, part: Input, place: u32) -> Result<(), AllocError>
    ensures { OnOk result (Writes message.old message.new (section_text part place)) }
{
    if place == 0 {
        return message.say(heading(part));
    }
    write_counted(message, part, place)?;
    message.say(" of ")?;
    message.say(heading(part))
}

/// Writes the row of a log.
fn write_row(message: &mut Message, part: Input, place: u32) -> Result<(), AllocError>
    ensures { OnOk result (Writes message.old message.new (row_text part place)) }
{
    match part {
        Input::Log if place > 0 => write_counted(message, part, place),
        _ => Ok(()),
    }
}

/// The place by which the refusal is counted, if it is not the line that is named.
pub(crate) fn place_words(
    alloc: Global,
    refusal: &RefusalDetails<'_>,
) -> Result<Message, AllocError>
    ensures { IfOk result (λ message. message.bytes.items
        ≡ place_text refusal.now.in_job refusal.now.part refusal.now.place) }
{
    let mut message = Message::new(alloc);
    if refusal.in_job {
        write_in_section(&mut message, refusal.part, refusal.place)?;
        return Ok(message);
    }
    write_row(&mut message, refusal.part, refusal.place)?;
    Ok(message)
}

/// Writes words between brackets, if there are any.
fn write_in_brackets(message: &mut Message, words: &Message) -> Result<(), AllocError>
    ensures { OnOk result (Writes message.old message.new (in_brackets words.now.bytes.items)) }
{
    if words.is_empty() {
        return Ok(());
    }
    message.say(" (")?;
    message.append(words)?;
    message.say(")")
}

/// Writes the line with what is named, the line in it, the column, and the place by which a refusal is counted.
pub(crate) fn write_place_line(
    message: &mut Message,
    margin: &Message,
    name: &[u8],
    parts: &Parts,
) -> Result<(), AllocError>
    requires { IsWithin parts.now.diagnostic }
    ensures { OnOk result (Writes message.old message.new
        (place_line margin.now.bytes.items name.now parts.now.line
        (alongside_text parts.now.diagnostic.shown.items parts.now.diagnostic.span
        parts.now.place.bytes.items))) }
{
    message.append(margin)?;
    message.say("--> ")?;
    message.add(name)?;
    write_line(message, parts.line as usize)?;
    write_line(message, first_column(&parts.diagnostic))?;
    write_in_brackets(message, &parts.place)?;
    message.end_line()
}
