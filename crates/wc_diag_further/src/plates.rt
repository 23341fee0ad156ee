ghost use Rattle.std.specs.Prelude.{OnOk};
ghost use Rattle.wc_diag_further.specs.Further.{IsMendedAs};

use crate::blanks::Blank;
use crate::marks::Mark;
use std::alloc::{AllocError, Global};
use wc_plate::{BrokenRule, plate_of};

/// A key that is given another value, that value, and the keys from whose values the rule that it mends may follow.
pub(crate) type Remedy = (&'static str, &'static str, &'static [&'static str]);

/// What mends a rule. A key that may be a missing one, spelled otherwise, is replaced by that one; if none is known, by a comment.
fn remedy_of(rule: BrokenRule<'_>, given: &[Remedy]) -> Remedy {
    match rule {
        BrokenRule::UnknownKey { missing, .. } => (missing.unwrap_or("#"), "5", &[]),
        BrokenRule::MissingKey { key } => (key, "5", &["#"]),
        BrokenRule::WrongKind { key } => (key, "5", &[]),
        BrokenRule::Unit => ("unit", "", &[]),
        BrokenRule::Decimals => ("decimals", "0", &["decimals"]),
        BrokenRule::Interval { .. } if given.iter().any(|it| it.0 == "e") => {
            ("decimals", "0", &["unit", "decimals", "e"])
        }
        BrokenRule::Interval { .. } => ("e", "5", &["unit", "decimals", "e"]),
        BrokenRule::Load { e: 50 } => ("max", "25000", &["e", "max"]),
        BrokenRule::Load { .. } => ("max", "10000", &["e", "max"]),
        BrokenRule::ZeroCounts => ("zero_counts", "0", &[]),
        BrokenRule::SpanCounts { .. } => ("span_counts", "8000000", &["e", "max", "span_counts"]),
        BrokenRule::Window => ("window", "2", &[]),
    }
}

/// Where the line begins that gives a value to a key, and its number of bytes. Sections and texts over lines are not searched.
fn line_of(text: &[u8], key: &str) -> Option<(usize, usize)> {
    let is_bare = matches!(key.as_bytes(), [byte, ..] if byte.is_ascii_alphanumeric());
    let mut start = 0_usize;
    for line in text.split(|byte| *byte == b'\n') {
        let (rest, mut quotes) = (line.trim_ascii_start(), line.windows(3));
        if rest.starts_with(b"[") || quotes.any(|it| matches!(it, b"\"\"\"" | b"'''")) {
            return None;
        }
        let value = rest.strip_prefix(key.as_bytes()).unwrap_or(b"");
        if is_bare && value.trim_ascii_start().starts_with(b"=") {
            return Some((start, line.len()));
        }
        start = start.saturating_add(line.len()).saturating_add(1);
    }
    None
}

/// What is to be taken out of a plate for the rule that it breaks, nothing if that is not sure; and whether the rule is one of its own.
pub(crate) fn plate_mending(
    alloc: Global,
    text: &[u8],
    given: &mut Vec<Remedy>,
) -> Result<(Option<Vec<Blank>>, bool), AllocError> {
    let Ok(table) = toml::table_from_slice(alloc, text) else {
        return Ok((None, false));
    };
    let Err(rule) = plate_of(&table) else {
        return Ok((None, false));
    };
    let remedy = remedy_of(rule, given);
    let is_own = !given.iter().any(|it| remedy.2.contains(&it.0));
    given.push(remedy)?;
    let place = match rule {
        BrokenRule::UnknownKey { key, .. } => line_of(text, key),
        BrokenRule::MissingKey { .. } => Some((0, 0)),
        _ => line_of(text, remedy.0),
    };
    let Some(place) = place else {
        return Ok((None, is_own));
    };
    let (lines, mark) = ((0, 0), Mark::None);
    Ok((Some(vec![in alloc; Blank { place, lines, mark }]?), is_own))
}

/// Gives the last of these keys its value in a line at the end of a plate; a program has none.
pub(crate) fn mend(text: &mut Vec<u8>, is_plate: bool, given: &[Remedy]) -> Result<(), AllocError>
    ensures { OnOk result (IsMendedAs is_plate text.old.items text.new.items) }
{
    match given.last() {
        Some((key, value, _)) if is_plate => {
            let value = if *key == "unit" { "\"t\"" } else { value };
            text.push(b'\n')?;
            text.extend_from_slice(key.as_bytes())?;
            text.extend_from_slice(b" = ")?;
            text.extend_from_slice(value.as_bytes())
        }
        _ => Ok(()),
    }
}
