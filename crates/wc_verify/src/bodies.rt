ghost use Rattle.std.specs.Prelude.{◌≡◌, ◌++◌, List, Option, OnOk, option_map};
ghost use Rattle.wc_model.specs.Definitions.{body_rules, Check, first_broken, Validates, BodyLine, jumps_to, lines_of, Name, name_of, Scope, Lines, Word as LabelWord, line_view, lines_view, word_view};
ghost use Rattle.wc_verify.specs.Bodies.{CountsLines, GoesTo, HandsOn, IsAt, jumped_row, row_named, labelled_way};
ghost use Rattle.wc_verify.specs.Instructions.{AsksAhead, instr_line};
ghost use Rattle.wc_verify.specs.Seeing.{IsScope};

use crate::edges::Way;
use crate::inside::validate_instr;
use crate::jumps::{leaves, note, target};
use crate::labels::{Labels, count_labels, enter};
use std::alloc::Global;
use wc_model::{Fault, Instr, Kind, Line, Word};
use wc_names::Tables;

/// Whether a later line carries the label of a jump.
fn is_ahead(labels: &Labels<'_>, target: Option<&[u8]>) -> bool
    ensures { (following : List BodyLine) → CountsLines labels.now following
        → AsksAhead (option_map (λ t. name_of t.now) target.entry) result following }
{
    match target {
        Some(name) => labels.row(name).ahead > 0,
        None => false,
    }
}

/// Checks an instruction whose line is entered, and keeps its jump: what it passes on.
fn validate_step<'a>(
    alloc: Global,
    tables: &Tables<'a>,
    unit: usize,
    labels: &mut Labels<'a>,
    instr: &Instr<'a>,
    kind: Option<Kind>,
) -> Result<Way, Fault>
    ensures validated { (scope : Scope) (label : Option LabelWord) (following : List BodyLine)
        (more : List Check) → IsScope tables.now unit scope → CountsLines labels.old following
        → HandsOn scope (instr_line instr.now label) following kind more result }
    ensures rows { OnOk result
        ((label : Option LabelWord) (name : Name)
        → row_named labels.new name
        ≡ jumped_row (jumps_to (instr_line instr.now label) name) kind
        (row_named labels.old name)) }
{
    let target = target(instr);
    let is_ahead = is_ahead(labels, target);
    let after = validate_instr(alloc, tables, unit, instr, is_ahead, kind)?;
    note(labels, target, kind)?;
    if leaves(instr) {
        Ok(Way::Unseen)
    } else {
        Ok(Way::Agreed(after))
    }
}

/// What a line with no instruction passes on.
fn handed_by_label(label: &Option<Word<'_>>, above: Way, kind: Option<Kind>) -> Way
    ensures { result ≡ labelled_way (option_map word_view label.now) above kind }
{
    match label {
        Some(_) => Way::Agreed(kind),
        None => above,
    }
}

/// Checks a line, from what is passed on from above: what it passes on.
fn validate_line<'a>(
    alloc: Global,
    tables: &Tables<'a>,
    unit: usize,
    labels: &mut Labels<'a>,
    line: &Line<'a>,
    above: Way,
) -> Result<Way, Fault>
    ensures { (scope : Scope) (before : List BodyLine) (rest : Lines)
        → IsScope tables.now unit scope
        → IsAt scope before (lines_of (line_view line.now rest)) labels.old above
        → GoesTo scope before (lines_of (line_view line.now rest)) (lines_of rest)
        labels.new result }
{
    let kind = enter(labels, &line.label, above)?;
    match &line.instr {
        Some(instr) => validate_step(alloc, tables, unit, labels, instr, kind),
        None => Ok(handed_by_label(&line.label, above, kind)),
    }
}

/// Checks the body of a unit, line by line.
pub(crate) fn validate_body<'a>(
    alloc: Global,
    tables: &Tables<'a>,
    unit: usize,
    lines: &Vec<Line<'a>>,
) -> Result<(), Fault>
    ensures { (scope : Scope) (more : List Check) → IsScope tables.now unit scope
        → scope.unit.body ≡ lines_view lines.now.items
        → Validates (first_broken (body_rules scope ++ more)) (first_broken more) result }
{
    let mut labels = count_labels(alloc, lines)?;
    let mut above = Way::Agreed(None);
    for line in lines {
        above = validate_line(alloc, tables, unit, &mut labels, line, above)?;
    }
    Ok(())
}
