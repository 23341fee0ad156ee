ghost use Rattle.std.specs.Prelude.{◌≡◌, ◌≤◌, ◌++◌, IfOk, IfSome, None, OnOk, length};
ghost use Rattle.wc_diag_spans.specs.Rows as rows;
ghost use Rattle.wc_diag_spans.specs.Rows.{IsInField, MeansField, glued};
ghost use Rattle.wc_record.specs.Reported.{fields_reported};

use crate::diagnostic::Diagnostic;
use std::alloc::{AllocError, Global};
use wc_diag_stops::{bytes_at, prefix};
use wc_diag_texts::{Case, sentence_of};
use wc_record::RefusedRow;

/// The number of bytes of a field that are shown at most.
const LONGEST_FIELD: usize = 16384;

/// The maximum of a row's fields shown: a message shows fewer bytes of a line than that number of commas.
const MOST_FIELDS: usize = 128;

/// A field of a row as it is shown: an empty one after the last.
fn shown_field(row: &RefusedRow, place: usize) -> &[u8]
    ensures field { result.now ≡ rows.shown_field (fields_reported row.now) place }
    ensures short { length result.now ≤ 16384 }
{
    match row.field(place) {
        Some(field) => prefix(field, LONGEST_FIELD),
        None => b"",
    }
}

/// Where one of the first three fields starts in the row as it is shown.
fn field_start(row: &RefusedRow, place: usize) -> usize
    ensures start { result ≡ rows.field_start (fields_reported row.now) place }
    ensures short { result ≤ 32770 }
{
    let second = shown_field(row, 0).len() + 1;
    match place {
        0 => 0,
        1 => second,
        _ => second + shown_field(row, 1).len() + 1,
    }
}

/// Adds a field after those before it.
fn add_field(text: &mut Vec<u8>, row: &RefusedRow, place: usize) -> Result<(), AllocError>
    ensures { OnOk result (text.new.items
        ≡ text.old.items ++ glued place (rows.shown_field (fields_reported row.now) place)) }
{
    if place > 0 {
        text.push(b',')?;
    }
    text.extend_from_slice(shown_field(row, place))
}

/// The row as it is shown: its fields, up to 128, with commas between.
pub(crate) fn shown_row(alloc: Global, row: &RefusedRow) -> Result<Vec<u8>, AllocError>
    ensures { IfOk result (λ text. text.items ≡ rows.shown_row (fields_reported row.now)) }
{
    let mut text = Vec::new(alloc);
    for place in 0..row.len().min(MOST_FIELDS) {
        add_field(&mut text, row, place)?;
    }
    Ok(text)
}

/// Semicolons are where commas should be.
fn has_semicolons(row: &RefusedRow) -> bool {
    row.len() == 1 && shown_field(row, 0).contains(&b';')
}

/// Says the number of fields of a row, or what is wrong with the first row.
fn report_fields(diagnostic: &mut Diagnostic, row: &RefusedRow, place: u32) {
    diagnostic.sentence = match (place, row.len()) {
        (1, 0) => Some("the log is empty: its first row ms,kind,data is missing"),
        (1, _) if has_semicolons(row) => Some(
            "the first row is not ms,kind,data: fields end with a comma, not with a semicolon",
        ),
        (1, _) => Some("the first row is not ms,kind,data"),
        (_, 4..) => {
            diagnostic.point(field_start(row, 2) + shown_field(row, 2).len(), 1);
            Some("the row has more than three fields")
        }
        _ if has_semicolons(row) => Some("the row has semicolons in place of commas"),
        _ if shown_field(row, 0).starts_with(b"#") => Some("a log has no comments: delete the row"),
        _ => sentence_of(601, Case::Plain),
    };
}

/// Whether some bytes are digits.
fn are_digits(bytes: &[u8]) -> bool {
    !bytes.is_empty() && bytes.iter().all(|byte| byte.is_ascii_digit())
}

/// The number of leading hexadecimal digits.
fn hexadecimal_length(text: &[u8]) -> usize
    ensures { result ≤ length text.now }
{
    text.iter()
        .take_while(|byte| byte.is_ascii_hexdigit())
        .count()
}

/// Says what is wrong with hexadecimal data.
fn report_hexadecimal(diagnostic: &mut Diagnostic, row: &RefusedRow) -> Result<(), AllocError>
    ensures { IfSome diagnostic.new.span (IsInField (fields_reported row.now) 2) }
{
    let (data, start) = (shown_field(row, 2), field_start(row, 2));
    let digits = hexadecimal_length(data);
    if digits < data.len() {
        diagnostic.point(start + digits, 1);
        let digit = bytes_at(data, digits, 1);
        return diagnostic.report(digit, Some("is not a hexadecimal digit"));
    }
    diagnostic.point(start, digits.max(1));
    diagnostic.sentence = match shown_field(row, 1) {
        [b'I', ..] => Some("the inputs are not four hexadecimal digits"),
        _ if digits % 2 == 1 => Some("the number of hexadecimal digits is odd"),
        _ => sentence_of(606, Case::Plain),
    };
    Ok(())
}

/// What is said of the offending field.
fn said_of_field(number: u16, row: &RefusedRow) -> Option<&'static str> {
    let (time, kind) = (shown_field(row, 0), shown_field(row, 1));
    let data = shown_field(row, 2);
    let counts = data.strip_prefix(b"-").unwrap_or(data);
    Some(match (number, kind) {
        (602 | 603, _) if time.is_empty() => "the time is missing",
        (602, _) if !are_digits(time) => "is not a whole number of milliseconds",
        (602, _) if time.len() > 13 => "has more than 13 digits",
        (604, []) => "the kind is missing",
        (604, [b' ' | b'\t', ..]) => "begins with a blank, and a row has none around its commas",
        (604, [b'c' | b'l' | b'i' | b's' | b'p']) => "is not a kind: kinds are capital letters",
        (605, _) if data.is_empty() => "the counts are missing",
        (605, _) if !are_digits(counts) => "is not a whole number",
        (605, _) if counts.len() > 10 => "has more than 10 digits",
        (608, [b'P']) => "follows a change, which takes no data",
        (608, _) => "follows a scan, which takes no data",
        _ => return sentence_of(number, Case::Plain),
    })
}

/// Says what is wrong with a field, and points to it.
fn report_field(
    diagnostic: &mut Diagnostic,
    row: &RefusedRow,
    number: u16,
    place: usize,
) -> Result<(), AllocError>
    ensures { IfSome diagnostic.new.span (IsInField (fields_reported row.now) place) }
{
    let field = shown_field(row, place);
    diagnostic.point(field_start(row, place), field.len().max(1));
    diagnostic.report(field, said_of_field(number, row))
}

/// Says which rule of its number a row breaks, and points to the offending field.
pub(crate) fn report_row(
    diagnostic: &mut Diagnostic,
    row: &RefusedRow,
    number: u16,
    place: u32,
) -> Result<(), AllocError>
    requires { diagnostic.old.span ≡ None }
    ensures { IfSome diagnostic.new.span (MeansField number (fields_reported row.now)) }
{
    match number {
        601 => {
            report_fields(diagnostic, row, place);
            Ok(())
        }
        602 | 603 => report_field(diagnostic, row, number, 0),
        604 => report_field(diagnostic, row, number, 1),
        605 | 608 => report_field(diagnostic, row, number, 2),
        606 => report_hexadecimal(diagnostic, row),
        609 => {
            diagnostic.point(field_start(row, 1), shown_field(row, 1).len().max(1));
            Ok(())
        }
        _ => Ok(()),
    }
}
