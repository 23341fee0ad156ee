ghost use Rattle.std.specs.Prelude.{◌≡◌, ◌++◌, [], IfOk, OnOk, string_bytes};
ghost use Rattle.wc_diag_messages.specs.Formats.{BeginsObject, IsEnded, IsNameOf, IsObjectOf, column_after, number_if_any, number_member, object_tokens, position_members, severity_members, text_if_any, text_member, word_members};
ghost use Rattle.wc_diag_spans.specs.Finds.{IsWithin};

use crate::parts::{Parts, Severity};
use crate::placing::first_column;
use json::Writer;
use std::alloc::{AllocError, Global};
use wc_diag_spans::Diagnostic;
use wc_diag_texts::{Message, column_of, shown_text};

/// Writes a member with a text.
pub(crate) fn write_text(writer: &mut Writer, name: &str, text: &str) -> Result<(), AllocError>
    ensures before { writer.new.before ≡ writer.old.before }
    ensures tokens { OnOk result (writer.new.tokens
        ≡ writer.old.tokens ++ text_member name.now text.now) }
{
    writer.key(name)?;
    writer.string(text)
}

/// Writes a member with words, if there are any.
fn write_words_if_any(writer: &mut Writer, name: &str, words: &Message) -> Result<(), AllocError>
    ensures before { writer.new.before ≡ writer.old.before }
    ensures tokens { OnOk result (writer.new.tokens
        ≡ writer.old.tokens ++ text_if_any name.now words.now.bytes.items) }
{
    if words.is_empty() {
        return Ok(());
    }
    write_text(writer, name, words.as_str())
}

/// Writes a member with a number.
pub(crate) fn write_number(writer: &mut Writer, name: &str, number: usize) -> Result<(), AllocError>
    ensures before { writer.new.before ≡ writer.old.before }
    ensures tokens { OnOk result (writer.new.tokens
        ≡ writer.old.tokens ++ number_member name.now number) }
{
    writer.key(name)?;
    writer.u64(number as u64)
}

/// Writes a member with a number that is not 0.
fn write_number_if_any(writer: &mut Writer, name: &str, number: usize) -> Result<(), AllocError>
    ensures before { writer.new.before ≡ writer.old.before }
    ensures tokens { OnOk result (writer.new.tokens
        ≡ writer.old.tokens ++ number_if_any name.now number) }
{
    if number == 0 {
        return Ok(());
    }
    write_number(writer, name, number)
}

/// The column after the offending slice on its line; 0 if there is none.
fn column_after(diagnostic: &Diagnostic) -> usize
    ensures { result ≡ column_after diagnostic.now.span diagnostic.now.shown.items }
{
    match diagnostic.span {
        Some(span) => {
            let end = span.start.saturating_add(span.length);
            column_of(&diagnostic.shown, end.min(diagnostic.shown.len()))
        }
        None => 0,
    }
}

/// Writes where it is wrong.
fn write_position(writer: &mut Writer, parts: &Parts) -> Result<(), AllocError>
    requires { IsWithin parts.now.diagnostic }
    ensures before { writer.new.before ≡ writer.old.before }
    ensures tokens { OnOk result (writer.new.tokens
        ≡ writer.old.tokens ++ position_members parts.now) }
{
    write_number_if_any(writer, "line", parts.line as usize)?;
    write_number_if_any(writer, "column", first_column(&parts.diagnostic))?;
    write_number_if_any(writer, "endColumn", column_after(&parts.diagnostic))?;
    write_words_if_any(writer, "place", &parts.place)
}

/// Writes that a warning is one.
pub(crate) fn write_severity(writer: &mut Writer, severity: Severity) -> Result<(), AllocError>
    ensures before { writer.new.before ≡ writer.old.before }
    ensures tokens { OnOk result (writer.new.tokens
        ≡ writer.old.tokens ++ severity_members severity) }
{
    match severity {
        Severity::Error => Ok(()),
        Severity::Warning => write_text(writer, "severity", "warning"),
    }
}

/// Writes what is wrong, and what to write instead.
fn write_reported(writer: &mut Writer, parts: &Parts) -> Result<(), AllocError>
    ensures before { writer.new.before ≡ writer.old.before }
    ensures tokens { OnOk result (writer.new.tokens
        ≡ writer.old.tokens ++ word_members parts.now) }
{
    write_severity(writer, parts.severity)?;
    write_number(writer, "number", parts.number as usize)?;
    write_text(writer, "sentence", parts.reported.as_str())?;
    write_words_if_any(writer, "hint", &parts.advice)
}

/// Ends an object, as a line.
pub(crate) fn line_of(mut writer: Writer) -> Result<Vec<u8>, AllocError>
    requires { writer.before ≡ [] }
    ensures { IfOk result (λ bytes. IsEnded writer.tokens bytes.items) }
{
    writer.end_object()?;
    let mut bytes = writer.into_inner();
    bytes.push(b'\n')?;
    Ok(bytes)
}

/// A name as it is if it is UTF-8; else as a message shows it.
fn name_text(alloc: Global, name: &[u8]) -> Result<String, AllocError>
    ensures { IfOk result (λ text. IsNameOf name.now (string_bytes text)) }
{
    match str::from_utf8(name) {
        Ok(text) => text.to_owned(alloc),
        Err(_) => {
            let shown = shown_text(alloc, name)?;
            shown.as_str().to_owned(alloc)
        }
    }
}

/// An object that begins with that name.
pub(crate) fn object_of(alloc: Global, name: &[u8]) -> Result<Writer, AllocError>
    ensures before { IfOk result (λ writer. writer.before ≡ []) }
    ensures begins { IfOk result (λ writer. BeginsObject name.now writer.tokens) }
{
    let name = name_text(alloc, name)?;
    let mut writer = Writer::new(Vec::new(alloc));
    writer.begin_object()?;
    write_text(&mut writer, "file", &name)?;
    Ok(writer)
}

/// What is said of what has that name, as a JSON object on one line.
pub(crate) fn object(alloc: Global, name: &[u8], parts: &Parts) -> Result<Vec<u8>, AllocError>
    requires { IsWithin parts.now.diagnostic }
    ensures { IfOk result
        (λ bytes. IsObjectOf (object_tokens parts.now) name.now bytes.items) }
{
    let mut writer = object_of(alloc, name)?;
    write_position(&mut writer, parts)?;
    write_reported(&mut writer, parts)?;
    line_of(writer)
}
