ghost use Rattle.std.specs.Prelude.{◌≡◌, IfOk, OnOk};
ghost use Rattle.wc_diag_messages.specs.Formats.{IsCalmIn, IsObjectOf, IsPlainIn, words_before_count};
ghost use Rattle.wc_diag_messages.specs.Warned.{LeavesOut, ReportsLeftOut, left_out_tokens};

use crate::object::{line_of, object_of, write_number, write_severity};
use crate::parts::Severity;
use std::alloc::{AllocError, Global};
use wc_diag_texts::{Format, Message};

/// The words before the count: warnings are counted, of refusals a least number is known.
fn words_before_count(severity: Severity) -> &'static str
    ensures { result.now ≡ words_before_count severity }
{
    match severity {
        Severity::Error => "and at least ",
        Severity::Warning => "and ",
    }
}

/// The words after the count.
fn words_after_count(severity: Severity, count: usize) -> &'static str {
    match (severity, count) {
        (Severity::Error, 1) => " more refusal",
        (Severity::Error, _) => " more refusals",
        (Severity::Warning, 1) => " more warning",
        (Severity::Warning, _) => " more warnings",
    }
}

/// Adds the number left out in words, and ends the line.
fn add_left_out(message: &mut Message, severity: Severity, count: usize) -> Result<(), AllocError>
    ensures { OnOk result
        (ReportsLeftOut message.old.bytes.items severity count message.new.bytes.items) }
{
    message.say(words_before_count(severity))?;
    message.count(count)?;
    message.say(words_after_count(severity, count))?;
    message.end_line()
}

/// The number left out as an object on one line.
fn object(
    alloc: Global,
    severity: Severity,
    file: &[u8],
    count: usize,
) -> Result<Vec<u8>, AllocError>
    ensures { IfOk result
        (λ bytes. IsObjectOf (left_out_tokens severity count) file.now bytes.items) }
{
    let mut writer = object_of(alloc, file)?;
    write_severity(&mut writer, severity)?;
    write_number(&mut writer, "leftOut", count)?;
    line_of(writer)
}

/// The number of warnings of a file left out, or of refusals at least, in that format, on a line with its line feed. The error is out
/// of memory.
pub fn left_out_message(
    alloc: Global,
    format: Format,
    severity: Severity,
    file: &[u8],
    count: usize,
) -> Result<Vec<u8>, AllocError>
    ensures all { IfOk result (λ bytes. LeavesOut format file.now severity count bytes.items) }
    ensures plain { IfOk result (λ bytes. IsPlainIn format bytes.items) }
    ensures calm { IfOk result (λ bytes. IsCalmIn format bytes.items) }
{
    let mut message = Message::new(alloc);
    match format {
        Format::Long => {}
        Format::Short => {
            message.add(file)?;
            message.say(": ")?;
        }
        Format::Json => return object(alloc, severity, file, count),
    }
    add_left_out(&mut message, severity, count)?;
    Ok(message.into_bytes())
}
