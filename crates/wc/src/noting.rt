use crate::reporting::{ReadFile, Sources, without_memory};
use crate::session::Session;
use std::alloc::AllocError;
use std::io;
use std::io::Write;
use wc_controller::{Input, load};
use wc_diag_messages::{Severity, left_out_message, warning_message};
use wc_diag_texts::Format;
use wc_diag_warnings::{Warning, find_warnings};
use wc_lexer::tokens;
use wc_model::Fault;
use wc_reader::read;
use wc_view_changes::notes;

/// What was made of a text, if it is accepted. The error is out of memory.
fn if_accepted<T>(made: Result<T, Fault>) -> io::Result<Option<T>> {
    match made {
        Ok(made) => Ok(Some(made)),
        Err(Fault::Memory) => Err(AllocError.into()),
        Err(Fault::Refused { .. }) => Ok(None),
    }
}

/// Prints which variables a change keeps though their first values are other ones: nothing if there is no next program. The error is out
/// of memory, or standard error fails.
fn report_notes(session: Session<'_>, files: &Sources<'_>) -> io::Result<()> {
    let (Some(old), Some(new)) = (files.text(Input::Program), files.text(Input::Next)) else {
        return Ok(());
    };
    let alloc = session.rt.alloc();
    let old = if_accepted(load(alloc, old.text))?;
    let new = if_accepted(load(alloc, new.text))?;
    let (Some(old), Some(new)) = (old, new) else {
        return Ok(());
    };
    let as_objects = matches!(session.format, Format::Json);
    match if_accepted(notes(alloc, as_objects, &old, &new))? {
        Some(lines) => session.rt.stderr().write_all(&lines),
        None => Ok(()),
    }
}

/// Prints these notes after a command with a next program that ended well: the exit status.
pub(crate) fn with_notes(session: Session<'_>, status: u8, files: &Sources<'_>) -> u8 {
    if status != 0 {
        return status;
    }
    match report_notes(session, files) {
        Err(error) if error.kind() == io::ErrorKind::OutOfMemory => without_memory(session.rt),
        // If standard error fails there is nobody left to report to.
        _ => 0,
    }
}

/// The number of warnings of a program that are printed at most.
const MOST_WARNINGS: usize = 100;

/// Prints the first warnings of a program, and the number of those left out.
fn write_warnings(
    session: Session<'_>,
    file: &ReadFile<'_>,
    warnings: &[Warning<'_>],
) -> io::Result<()> {
    let (alloc, format, name) = (session.rt.alloc(), session.format, file.path.as_bytes());
    // An accepted text has tokens.
    let Some(tokens) = if_accepted(tokens(alloc, file.bytes))? else {
        return Ok(());
    };
    for warning in warnings.iter().take(MOST_WARNINGS) {
        let message = warning_message(alloc, format, name, file.bytes, &tokens, warning)?;
        session.rt.stderr().write_all(&message)?;
    }
    if warnings.len() > MOST_WARNINGS {
        let left = warnings.len() - MOST_WARNINGS;
        let message = left_out_message(alloc, format, Severity::Warning, name, left)?;
        session.rt.stderr().write_all(&message)?;
    }
    Ok(())
}

/// Prints what is suspicious of a program that is accepted: whether anything is. The error is out of memory.
fn report_warnings(session: Session<'_>, file: &ReadFile<'_>) -> io::Result<bool> {
    let alloc = session.rt.alloc();
    let Some(source) = if_accepted(read(alloc, file.bytes))? else {
        return Ok(false);
    };
    let warnings = match if_accepted(find_warnings(alloc, &source))? {
        Some(warnings) if !warnings.is_empty() => warnings,
        _ => return Ok(false),
    };
    match write_warnings(session, file, &warnings) {
        Err(error) if error.kind() == io::ErrorKind::OutOfMemory => Err(error),
        // If standard error fails there is nobody left to report to.
        _ => Ok(true),
    }
}

/// Prints what is suspicious of a program that is accepted: the exit status, that of a refusal if there is one, or if there is a
/// warning and warnings are denied.
pub(crate) fn with_warnings(
    session: Session<'_>,
    status: u8,
    file: &ReadFile<'_>,
    deny: bool,
) -> u8 {
    if status != 0 {
        return status;
    }
    match report_warnings(session, file) {
        Ok(warned) => u8::from(warned && deny),
        Err(_) => without_memory(session.rt),
    }
}
