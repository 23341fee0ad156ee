ghost use Rattle.std.specs.Prelude.{◌≡◌, ℕ, ◌+◌, ◌<◌, IfOk, OnOk, IsOkUnless, Option};
ghost use Rattle.wc_model.specs.Definitions.{name_of, Scope, Lines, Word as LabelWord, line_view, lines_view};
ghost use Rattle.wc_cost.specs.Lowerable.{IsAhead, IsLowerable, IsLineLowerable, IsNear};
ghost use Rattle.wc_cost.specs.Lowering.{HoldsLabels, IsFlat, IsKeptFlat};
ghost use Rattle.wc_verify.specs.{instr_line, IsScope};

use crate::flat::Flat;
use crate::inside::put_instr;
use crate::labels::LabelCounts;
use std::alloc::{AllocError, Global};
use wc_model::{Fault, Instr, Line, or_memory};
use wc_names::Tables;

/// The number of the flat lines that are there before a label.
fn lines_ahead<'a>(labels: &LabelCounts<'a>, label: &[u8], count: usize) -> u32
    ensures { (rest : Lines) → HoldsLabels labels.now rest count
        → IsNear rest (name_of label.now) → IsAhead rest result (name_of label.now) }
{
    match labels.get(label) {
        Some(left) => distance(left, count),
        None => 0,
    }
}

/// How far ahead an instruction's label is; 0 if it names none.
fn label_skip<'a>(labels: &LabelCounts<'a>, instr: &Instr<'a>, count: usize) -> u32
    ensures { (rest : Lines) (scope : Scope) (label : Option LabelWord)
        → HoldsLabels labels.now rest count
        → IsLineLowerable scope (IsNear rest) (instr_line instr.now label)
        → IsLineLowerable scope (IsAhead rest result) (instr_line instr.now label) }
{
    match instr {
        Instr::Jump { label, .. } => lines_ahead(labels, label, count),
        Instr::Load { .. } => 0,
        Instr::Store { .. } => 0,
        Instr::Apply { .. } => 0,
        Instr::Defer { .. } => 0,
        Instr::Not { .. } => 0,
        Instr::Call { .. } => 0,
        Instr::Return { .. } => 0,
    }
}

/// The number of lines before the last `left` of `count` lines.
fn distance(left: usize, count: usize) -> u32
    ensures { (n : ℕ) → n + left ≡ count → n < 4294967296 → result ≡ n }
{
    u32::try_from(count.saturating_sub(left)).unwrap_or(u32::MAX)
}

/// Puts the flat lines of a line of a body before those that are there, and keeps its label.
fn put_line<'a>(
    tables: &Tables<'a>,
    unit: usize,
    line: &Line<'a>,
    labels: &mut LabelCounts<'a>,
    flat: &mut Flat,
) -> Result<(), AllocError>
    ensures { OnOk result
        ((scope : Scope) (rest : Lines) → IsScope tables.now unit scope
        → IsLowerable scope (line_view line.now rest) → IsKeptFlat scope rest labels.old flat.old
        → IsKeptFlat scope (line_view line.now rest) labels.new flat.new) }
{
    if let Some(instr) = &line.instr {
        let skip = label_skip(labels, instr, flat.len());
        put_instr(tables, unit, instr, skip, flat)?;
    }
    match line.label {
        Some(word) => labels.set(word.text, flat.len()),
        None => Ok(()),
    }
}

/// The lowered lines of a body.
pub fn flat_body<'a>(
    alloc: Global,
    tables: &Tables<'a>,
    unit: usize,
    lines: &[Line<'a>],
) -> Result<Flat, Fault>
    ensures lowered { IfOk result
        (λ flat. (scope : Scope) → IsScope tables.now unit scope
        → IsLowerable scope (lines_view lines.now) → IsFlat scope (lines_view lines.now) flat) }
    ensures memory { IsOkUnless result Fault.Memory }
{
    let mut flat = Flat::new(alloc);
    let mut labels = LabelCounts::new(alloc);
    for index in (0..lines.len()).rev() {
        let Some(last) = lines.get(index) else {
            continue;
        };
        or_memory(put_line(tables, unit, last, &mut labels, &mut flat))?;
    }
    Ok(flat)
}
