ghost use Rattle.std.specs.Prelude.{◌≡◌, ◌≤◌, ◌<◌, IfOk, IfSome, None, Some, length};
ghost use Rattle.wc_diag_spans.specs.Finds.{Finds, FindsIn, FindsName, FindsRow, IsWithin};
ghost use Rattle.wc_diag_spans.specs.OffendingTokens.{HasLaterSpan, HasStop, IsKept};
ghost use Rattle.wc_record.specs.Reported.{fields_reported};
ghost use Rattle.wc_diag_spans.specs.Lines.{ShowsLine, known_line, line_of_part, read_as};

use crate::diagnostic::Diagnostic;
use crate::lines::line_at;
use crate::plates::find_plate_fault;
use crate::programs::find_program_fault;
use crate::refusal::{Evidence, RefusalDetails};
use crate::rows::{report_row, shown_row};
use std::alloc::{AllocError, Global};
use wc_diag_advice::watched_advice;
use wc_diag_mistakes::{Sentence, said_text};
use wc_diag_places::{SpannedSource, read_by_places};
use wc_diag_stops::{bytes_at, first_word};
use wc_job::Input;
use wc_model::Fault;
use wc_record::RefusedRow;

/// Finds the fault of a text in its part.
fn find_in(
    alloc: Global,
    diagnostic: &mut Diagnostic,
    refusal: &RefusalDetails<'_>,
    text: &[u8],
) -> Result<(), AllocError>
    requires { diagnostic.old.span ≡ None }
    ensures stopped { read_as refusal.now.part ≡ Input.Program → refusal.now.number < 300
        → IfOk result
        (λ _. HasStop text.now refusal.now.number diagnostic.old.line diagnostic.new) }
    ensures offending { read_as refusal.now.part ≡ Input.Program → 300 ≤ refusal.now.number
        → IfOk result
        (λ _. HasLaterSpan text.now refusal.now.number diagnostic.old.line diagnostic.new) }
{
    match refusal.part {
        Input::Program | Input::Next => find_program_fault(alloc, diagnostic, text, refusal.number),
        Input::Plate => find_plate_fault(alloc, diagnostic, text, refusal.number),
        Input::Job | Input::Log | Input::Names => Ok(()),
    }
}

/// The line that is shown, counted from 1 in the current text, if this one was found; 0: none.
fn line_of_part(refusal: &RefusalDetails<'_>, found: u32) -> u32
    ensures { result ≡ line_of_part refusal.now.part refusal.now.place found }
{
    match refusal.part {
        Input::Job | Input::Log | Input::Names => 0,
        Input::Plate => found,
        Input::Program | Input::Next => refusal.place,
    }
}

/// Moves a span after the line's end to that end.
fn keep_span(diagnostic: &mut Diagnostic)
    ensures within { IfSome diagnostic.new.span
        (λ span. span.start ≤ length diagnostic.new.shown.items) }
    ensures span { IfSome diagnostic.new.span
        (λ span. IsKept diagnostic.old diagnostic.new diagnostic.old.line span) }
    ensures line { diagnostic.new.line ≡ diagnostic.old.line }
    ensures shown { diagnostic.new.shown.items ≡ diagnostic.old.shown.items }
{
    let end = diagnostic.shown.len();
    if let Some(span) = diagnostic.span {
        if span.start > end {
            diagnostic.point(end, span.length);
        }
    }
}

/// Keeps the bytes of the line of that number, and no span outside it; none if the text has no such line.
fn keep_line(diagnostic: &mut Diagnostic, text: &[u8], line: u32) -> Result<(), AllocError>
    ensures within { IfOk result
        (λ _. IfSome diagnostic.new.span
        (λ span. span.start ≤ length diagnostic.new.shown.items)) }
    ensures line { IfOk result
        (λ _. ShowsLine text.now diagnostic.new.line diagnostic.new.shown.items) }
    ensures known { IfOk result (λ _. diagnostic.new.line ≡ known_line text.now line) }
    ensures span { IfOk result
        (λ _. IfSome diagnostic.new.span
        (λ span. IsKept diagnostic.old diagnostic.new line span)) }
{
    diagnostic.shown.clear();
    let Some(shown) = line_at(text, line) else {
        diagnostic.line = 0;
        diagnostic.span = None;
        return Ok(());
    };
    diagnostic.line = line;
    diagnostic.shown.extend_from_slice(shown)?;
    keep_span(diagnostic);
    Ok(())
}

/// What is wrong with the row of a log.
fn find_row(
    alloc: Global,
    refusal: &RefusalDetails<'_>,
    row: &RefusedRow,
) -> Result<Diagnostic, AllocError>
    ensures found { IfOk result (FindsRow refusal.now.number (fields_reported row.now)) }
    ensures within { IfOk result (λ diagnostic. IsWithin diagnostic) }
{
    let mut diagnostic = Diagnostic::new(alloc, 1);
    report_row(&mut diagnostic, row, refusal.number, refusal.place)?;
    diagnostic.line = 1;
    diagnostic.shown = shown_row(alloc, row)?;
    keep_span(&mut diagnostic);
    Ok(diagnostic)
}

/// What is wrong with the text of a part.
fn find_text(
    alloc: Global,
    refusal: &RefusalDetails<'_>,
    text: &[u8],
) -> Result<Diagnostic, AllocError>
    ensures found { IfOk result (FindsIn refusal.now text.now) }
    ensures within { IfOk result (λ diagnostic. IsWithin diagnostic) }
{
    let mut diagnostic = Diagnostic::new(alloc, line_of_part(refusal, 0));
    find_in(alloc, &mut diagnostic, refusal, text)?;
    let line = line_of_part(refusal, diagnostic.line);
    keep_line(&mut diagnostic, text, line)?;
    Ok(diagnostic)
}

/// Which variable of a program a watched name may be, if it can be read, one is near, and it does not have the first word of the name.
fn name_advice(alloc: Global, read: &Result<SpannedSource<'_>, Fault>, name: &[u8]) -> Sentence {
    let read = match read {
        Ok(read) => read,
        Err(Fault::Memory) => return Some(Err(AllocError)),
        Err(_) => return None,
    };
    let (mut tokens, word) = (read.tokens.iter(), first_word(name));
    if tokens.any(|token| token.text.eq_ignore_ascii_case(word)) {
        return None;
    }
    watched_advice(alloc, &read.source.units, name)
}

/// What is wrong with a list of names: no program has the one that is there.
fn find_name(
    alloc: Global,
    list: &[u8],
    start: usize,
    length: usize,
    program: &[u8],
) -> Result<Diagnostic, AllocError>
    ensures found { IfOk result (FindsName list.now) }
    ensures within { IfOk result (λ diagnostic. IsWithin diagnostic) }
{
    let mut diagnostic = Diagnostic::new(alloc, 1);
    let name = bytes_at(list, start, length);
    if !name.is_empty() {
        diagnostic.report(name, Some("is not a variable of the program"))?;
    }
    let advice = name_advice(alloc, &read_by_places(alloc, program), name);
    diagnostic.advice = said_text(alloc, advice)?;
    diagnostic.hint =
        "name a variable, or a field after its instance, such as `t.ET`, with commas and no spaces between";
    diagnostic.point(start, length);
    diagnostic.line = 1;
    diagnostic.shown.clear();
    diagnostic.shown.extend_from_slice(list)?;
    keep_span(&mut diagnostic);
    Ok(diagnostic)
}

/// What exactly is wrong, as far as what is available says it; nothing if nothing is. The offending
/// slice is in the line that is shown, or at its end. The error is out of memory.
pub fn find(alloc: Global, refusal: &RefusalDetails<'_>) -> Result<Diagnostic, AllocError>
    ensures { IfOk result (Finds refusal.now) }
{
    match refusal.evidence {
        Evidence::Text(text) => find_text(alloc, refusal, text),
        Evidence::Row(row) => find_row(alloc, refusal, row),
        Evidence::Names {
            list,
            start,
            length,
            program,
        } => find_name(alloc, list, start, length, program),
        Evidence::Nothing => Ok(Diagnostic::new(alloc, 0)),
    }
}
