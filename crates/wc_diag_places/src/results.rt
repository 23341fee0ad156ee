use crate::operand_tokens::{line_at, tokens_at, tokens_from};
use crate::spanned_source::SpannedSource;
use wc_built_in::kind_after_operator;
use wc_diag_stops::{Brought, LabelPaths, PathToLabel, ResultKind, last_line, without_line_ends};
use wc_model::{Condition, Instr, Line, MOST_DEPTH, Operand, Word};
use wc_names::Tables;

/// Where an instruction begins.
fn place_of(instruction: &Instr<'_>) -> u32 {
    match instruction {
        Instr::Load { line, .. }
        | Instr::Store { line, .. }
        | Instr::Apply { line, .. }
        | Instr::Defer { line, .. }
        | Instr::Not { line }
        | Instr::Jump { line, .. }
        | Instr::Call { line, .. }
        | Instr::Return { line, .. } => *line,
    }
}

/// Whether a line is at or after a place, or has it in its parenthesis.
fn reaches(line: &Line<'_>, place: u32) -> bool {
    match &line.instr {
        Some(Instr::Defer { close, .. }) => *close >= place,
        Some(instruction) => place_of(instruction) >= place,
        None => false,
    }
}

/// The result that an operand makes at a place.
fn result_of(tables: &Tables<'_>, unit: usize, term: &Operand<'_>, at: u32) -> Option<ResultKind> {
    let kind = tables.entity(unit, term)?.kind?;
    Some(ResultKind { kind, line: at })
}

/// Whether a line leaves for a label, or the body, whatever the result is.
fn always_leaves(line: &Line<'_>) -> bool {
    matches!(
        &line.instr,
        Some(Instr::Jump { condition, .. } | Instr::Return { condition, .. })
            if *condition == Condition::Always
    )
}

/// The result after a line, from that before its instruction.
fn result_after(
    tables: &Tables<'_>,
    unit: usize,
    line: &Line<'_>,
    before: Option<ResultKind>,
) -> Option<ResultKind> {
    match &line.instr {
        Some(Instr::Load { operand, line, .. }) => result_of(tables, unit, operand, *line),
        Some(Instr::Apply { operator, line, .. } | Instr::Defer { operator, line, .. }) => {
            let kind = kind_after_operator(*operator, None);
            kind.map_or(before, |kind| Some(ResultKind { kind, line: *line }))
        }
        _ if always_leaves(line) => None,
        _ => before,
    }
}

/// The result before the first of some lines that reaches a place, and its instruction.
fn result_until<'a, 't>(
    tables: &Tables<'_>,
    unit: usize,
    lines: &'t [Line<'a>],
    place: u32,
    first: Option<ResultKind>,
) -> (Option<ResultKind>, Option<&'t Instr<'a>>) {
    let mut result = first;
    for line in lines {
        // At a label it is not sure.
        result = result.filter(|_| line.label.is_none());
        if reaches(line, place) {
            return (result, line.instr.as_ref());
        }
        result = result_after(tables, unit, line, result);
    }
    (result, None)
}

/// The kinds of the result before the instruction or `)` at a place of a body, and before the parenthesis around it, if that is sure.
pub(crate) fn results_at(
    tables: &Tables<'_>,
    unit: usize,
    body: &[Line<'_>],
    place: u32,
) -> (Option<ResultKind>, Option<ResultKind>) {
    let (mut before, mut outer, mut lines) = (None, None, body);
    for _level in 0..=MOST_DEPTH {
        let (result, reached) = result_until(tables, unit, lines, place, before);
        before = result;
        match reached {
            Some(
                Instr::Defer {
                    operand,
                    inside,
                    line,
                    ..
                },
            ) if *line < place => {
                outer = result;
                let operand = operand.as_ref();
                before = operand.and_then(|operand| result_of(tables, unit, operand, *line));
                lines = inside;
            }
            _ => return (before, outer),
        }
    }
    (before, outer)
}

/// Where a line jumps to that label, if it does.
fn jump_to(line: &Line<'_>, name: &[u8]) -> Option<u32> {
    match &line.instr {
        Some(Instr::Jump { label, line, .. }) if label.eq_ignore_ascii_case(name) => Some(*line),
        _ => None,
    }
}

/// The paths to a label that were found.
#[derive(Clone, Copy)]
struct FoundPaths {
    /// The first of which is sure what it brings.
    first: Option<PathToLabel>,
    /// The first of these that brings something else.
    other: Option<PathToLabel>,
    /// The first of which it is not sure.
    unsure: Option<PathToLabel>,
    /// Whether that is the only one.
    is_only: bool,
}

/// Adds the path from a line, with the result that it brings: that there is none is sure before the first label of a body.
fn add_path(found: &mut FoundPaths, line: u32, made: Option<ResultKind>, is_after_label: bool) {
    let brought = match made {
        Some(made) => Brought::Kind(made.kind),
        None if is_after_label => Brought::Unsure,
        None => Brought::Nothing,
    };
    let path = PathToLabel { line, brought };
    match (brought, found.first.map(|first| first.brought)) {
        (Brought::Unsure, _) => {
            found.is_only = found.unsure.is_none();
            found.unsure = found.unsure.or(Some(path));
        }
        (_, None) => found.first = Some(path),
        (Brought::Kind(kind), Some(Brought::Kind(first))) if kind == first => {}
        (Brought::Nothing, Some(Brought::Nothing)) => {}
        _ => found.other = found.other.or(Some(path)),
    }
}

/// The paths by which no single result is at a label: if all that are sure bring the same type, the only other one does not.
fn paths_of(found: FoundPaths) -> Option<LabelPaths> {
    let first = found.first.or(found.unsure)?;
    let other = match first.brought {
        Brought::Kind(_) if found.other.is_none() && found.is_only => found.unsure,
        _ => found.other,
    };
    Some(LabelPaths { first, other })
}

/// The number of lines up to that of the label right before the instruction at a place, and that label, if there is one.
fn label_before<'a>(body: &[Line<'a>], place: u32) -> Option<(usize, Word<'a>)> {
    let index = body.iter().position(|line| line
        .instr
        .as_ref()
        .is_some_and(|instr| place_of(instr) == place))?;
    if let Some(label) = body.get(index)?.label {
        return Some((index, label));
    }
    let above = index.checked_sub(1)?;
    let line = body.get(above).filter(|line| line.instr.is_none())?;
    Some((above, line.label?))
}

/// The paths to the label right before the instruction at a place, if there is one: its jumps, and the last line above if it goes on.
pub(crate) fn paths_to_label(
    spanned_source: &SpannedSource<'_>,
    tables: &Tables<'_>,
    unit: usize,
    place: u32,
) -> Option<LabelPaths> {
    let tokens = &spanned_source.tokens;
    let body = &spanned_source.source.units.get(unit)?.body;
    let (index, label) = label_before(body, place)?;
    let above = body.get(..index)?;
    let mut found = FoundPaths {
        first: None,
        other: None,
        unsure: None,
        is_only: true,
    };
    let (mut result, mut is_after_label): (Option<ResultKind>, bool) = (None, false);
    for line in above {
        is_after_label = is_after_label || line.label.is_some();
        result = result.filter(|_| line.label.is_none());
        if let Some(place) = jump_to(line, label.text) {
            let line = line_at(tokens_from(tokens, place).first());
            add_path(&mut found, line, result, is_after_label);
        }
        result = result_after(tables, unit, line, result);
    }
    if !above.last().is_some_and(always_leaves) {
        let left = tokens_from(tokens, label.line).len();
        let before = tokens_at(tokens, 0, tokens.len().saturating_sub(left));
        let line = line_at(last_line(without_line_ends(before)).first());
        add_path(&mut found, line, result, is_after_label);
    }
    paths_of(found)
}
