use crate::diagnostic::{Diagnostic, Span};
use crate::lines::{column_at, line_length, line_of};
use memchr::{memchr, memmem};
use std::alloc::{AllocError, Global};
use std::fmt::Write;
use toml::Value;
use toml::de::Error;
use wc_diag_mistakes::{Sentence, said_text};
use wc_diag_stops::{bytes_at, following};
use wc_plate::{BrokenRule, allows_interval, plate_of};

/// The scale intervals that some plate may have.
const INTERVALS: [i64; 6] = [1, 2, 5, 10, 20, 50];

/// The number of leading spaces and tabs.
fn blanks(text: &[u8]) -> usize {
    text.iter()
        .take_while(|byte| matches!(byte, b' ' | b'\t'))
        .count()
}

/// Where a key is given its value, or that value, up to a blank, a comment or the line's end, if the first line does so.
fn span_on(line: &[u8], name: &str, is_key: bool) -> Option<Span> {
    let start = blanks(line);
    let rest = following(line, start).strip_prefix(name.as_bytes())?;
    let rest = following(rest, blanks(rest)).strip_prefix(b"=")?;
    let value = following(rest, blanks(rest));
    let bytes = value.iter();
    let bytes = bytes.take_while(|byte| **byte > b' ' && **byte != b'#');
    let (start, length) = match is_key {
        true => (start, name.len()),
        false => (line.len().saturating_sub(value.len()), bytes.count().max(1)),
    };
    Some(Span { start, length })
}

/// The one line that gives a value to that key, counted from 1, and the key or the value in it; nothing if a text could run over lines.
fn search_key(text: &[u8], name: &str, is_key: bool) -> Option<(u32, Span)> {
    // Three quotes of a kind in a row could begin a text that runs over lines.
    if memmem::find(text, b"\"\"\"").is_some() || memmem::find(text, b"'''").is_some() {
        return None;
    }
    let (mut found, mut start) = (None, 0_usize);
    for _line in 0..text.len() {
        let rest = following(text, start).iter();
        start = start.saturating_add(rest.take_while(|byte| **byte == b'\n').count());
        if let Some(span) = span_on(following(text, start), name, is_key) {
            if found.is_some() {
                return None;
            }
            found = Some((line_of(text, start), span));
        }
        match memchr(b'\n', following(text, start)) {
            Some(length) => start = start.saturating_add(length),
            None => return found,
        }
    }
    found
}

/// Points to a key or to its value, if one line gives it.
fn point_to(diagnostic: &mut Diagnostic, text: &[u8], name: &str, is_key: bool) {
    if let Some((line, span)) = search_key(text, name, is_key) {
        diagnostic.line = line;
        diagnostic.span = Some(span);
    }
}

/// Which scale intervals are allowed with a unit and decimals.
fn interval_advice(alloc: Global, unit: [u8; 3], decimals: u32) -> Result<String, AllocError> {
    let mut allowed = String::new(alloc);
    for e in &INTERVALS {
        if allows_interval(unit, decimals, *e) {
            let mark = if allowed.is_empty() { "" } else { ", " };
            write!(allowed, "{mark}{e}")?;
        }
    }
    let unit = str::from_utf8(&unit).unwrap_or("g").trim();
    if allowed.is_empty() {
        return format!(in alloc;
            "no e is allowed with unit = \"{unit}\" and decimals = {decimals}; write decimals = 0"
        );
    }
    format!(in alloc; "with unit = \"{unit}\" and decimals = {decimals}, e is one of {allowed}")
}

/// The key whose value a rule on values refers to.
fn key_of(rule: BrokenRule<'_>) -> &'static str {
    match rule {
        BrokenRule::Unit => "unit",
        BrokenRule::Decimals => "decimals",
        BrokenRule::Interval { .. } => "e",
        BrokenRule::Load { .. } => "max",
        BrokenRule::ZeroCounts => "zero_counts",
        BrokenRule::SpanCounts { .. } => "span_counts",
        _ => "window",
    }
}

/// Which values a rule on values allows, if its number does not say it.
fn advice_of(alloc: Global, rule: BrokenRule<'_>) -> Sentence {
    match rule {
        BrokenRule::Interval { unit, decimals } => Some(interval_advice(alloc, unit, decimals)),
        BrokenRule::Load { e } => {
            let (least, most) = (e as u64 * 500, e as u64 * 10000);
            Some(format!(in alloc; "with e = {e}, max is a multiple of {e} from {least} to {most}"))
        }
        BrokenRule::SpanCounts { n } => {
            let least = n as u64 * 4;
            Some(format!(in alloc; "with max / e = {n}, span_counts is {least} to 8000000"))
        }
        _ => None,
    }
}

/// Says which rule is broken, and points to the key that is referred to.
fn report_rule(
    alloc: Global,
    diagnostic: &mut Diagnostic,
    text: &[u8],
    rule: BrokenRule<'_>,
) -> Result<(), AllocError> {
    match rule {
        BrokenRule::UnknownKey { key, missing } => {
            point_to(diagnostic, text, key, true);
            if let Some(missing) = missing {
                diagnostic.advice = format!(in alloc; "{missing} is missing")?;
            }
            diagnostic.report(key.as_bytes(), Some("is not a key of a plate"))
        }
        BrokenRule::MissingKey { key } => diagnostic.report(key.as_bytes(), Some("is missing")),
        BrokenRule::WrongKind { key } => {
            point_to(diagnostic, text, key, false);
            let sentence = match key {
                "unit" => "must be a text",
                _ => "must be a whole number",
            };
            diagnostic.report(key.as_bytes(), Some(sentence))
        }
        rule => {
            point_to(diagnostic, text, key_of(rule), false);
            diagnostic.sentence = match rule {
                BrokenRule::ZeroCounts => Some("zero_counts must be -8388608 to 8388607"),
                BrokenRule::SpanCounts { .. } => Some("span_counts is out of range"),
                _ => None,
            };
            diagnostic.advice = said_text(alloc, advice_of(alloc, rule))?;
            Ok(())
        }
    }
}

/// Says that a section is not part of a plate.
fn report_section(alloc: Global, diagnostic: &mut Diagnostic, key: &str) -> Result<(), AllocError> {
    diagnostic.advice = format!(in alloc; "delete the line [{key}]: a plate has no sections")?;
    diagnostic.report(key.as_bytes(), Some("is not a key of a plate"))
}

/// Says where a text stops being TOML, and why.
fn report_syntax(
    alloc: Global,
    diagnostic: &mut Diagnostic,
    text: &[u8],
    error: &Error,
) -> Result<(), AllocError> {
    let Some(span) = error.span() else {
        return Err(AllocError);
    };
    let offending = bytes_at(text, span.start, span.end.saturating_sub(span.start));
    diagnostic.line = line_of(text, span.start);
    diagnostic.point(column_at(text, span.start), line_length(offending).max(1));
    let why = error.message();
    diagnostic.detail = format!(in alloc; "{why}")?;
    Ok(())
}

/// Finds the fault of a plate: the rule of that number that its check names.
pub(crate) fn find_plate_fault(
    alloc: Global,
    diagnostic: &mut Diagnostic,
    text: &[u8],
    number: u16,
) -> Result<(), AllocError> {
    match toml::table_from_slice(alloc, text) {
        Ok(table) => match plate_of(&table) {
            Err(BrokenRule::UnknownKey { key, .. })
                if number == 502 && matches!(table.get(key), Some(Value::Table(_))) => {
                report_section(alloc, diagnostic, key)
            }
            Err(rule) if rule.number() == number => report_rule(alloc, diagnostic, text, rule),
            _ => Ok(()),
        },
        Err(error) if number == 501 => report_syntax(alloc, diagnostic, text, &error),
        // a text that is too long was not read to its end
        Err(_) => Ok(()),
    }
}
