ghost use Rattle.std.specs.Prelude.{Option, OnOk, option_map};
ghost use Rattle.wc_model.specs.Definitions.{NestedLine, Scope, Lines, Word, line_view, lines_view, term_view};
ghost use Rattle.wc_cost.specs.Lowering.{FlatLines, AddsLine, AddsLines};
ghost use Rattle.wc_cost.specs.Lowerable.{IsAhead, IsInsideLowerable, IsLineLowerable, IsOpenable};
ghost use Rattle.wc_verify.specs.{instr_line, IsScope};

use crate::calls::put_call;
use crate::flat::Flat;
use crate::steps::{apply, load, opening, store};
use std::alloc::AllocError;
use wc_model::{Code, Instr, Line, Operand, Operator};
use wc_names::Tables;

/// Puts the flat lines of a parenthesis before those that are there.
#[cycle(inside)]
fn put_nested<'a>(
    tables: &Tables<'a>,
    unit: usize,
    operator: Operator,
    operand: &Option<Operand<'a>>,
    inside: &Vec<Line<'a>>,
    line: u32,
    close: u32,
    flat: &mut Flat,
) -> Result<(), AllocError>
    ensures { OnOk result
        ((scope : Scope) (rest : Lines) (label : Option Word) → IsScope tables.now unit scope
        → IsOpenable scope (option_map term_view operand.now)
        → IsInsideLowerable scope (lines_view inside.now.items)
        → AddsLine scope rest
        (NestedLine label line operator (option_map term_view operand.now)
        (lines_view inside.now.items) close) flat.old flat.new) }
{
    flat.put(Code::Close { operator }, close)?;
    put_inside(tables, unit, inside, flat)?;
    flat.put(opening(tables, unit, operand), line)
}

/// Puts the flat lines of an instruction before those that are there; a jump passes over n
/// of them.
#[cycle(inside)]
pub(crate) fn put_instr<'a>(
    tables: &Tables<'a>,
    unit: usize,
    instr: &Instr<'a>,
    skip: u32,
    flat: &mut Flat,
) -> Result<(), AllocError>
    ensures { OnOk result
        ((scope : Scope) (rest : Lines) (label : Option Word) → IsScope tables.now unit scope
        → IsLineLowerable scope (IsAhead rest skip) (instr_line instr.now label)
        → AddsLine scope rest (instr_line instr.now label) flat.old flat.new) }
{
    match instr {
        Instr::Load {
            negated,
            operand,
            line,
        } => flat.put(load(tables, unit, *negated, operand), *line),
        Instr::Store {
            storing,
            target,
            line,
        } => flat.put(store(tables, unit, *storing, target), *line),
        Instr::Apply {
            operator,
            operand,
            line,
        } => flat.put(apply(tables, unit, *operator, operand), *line),
        Instr::Defer {
            operator,
            operand,
            inside,
            line,
            close,
        } => put_nested(
            tables, unit, *operator, operand, inside, *line, *close, flat,
        ),
        Instr::Not { line } => flat.put(Code::Not, *line),
        Instr::Jump {
            condition,
            line,
            ..
        } => flat.put(
            Code::Jump {
                condition: *condition,
                skip,
            },
            *line,
        ),
        Instr::Call {
            condition,
            instance,
            arguments,
            line,
        } => put_call(tables, unit, *condition, instance, arguments, *line, flat),
        Instr::Return { condition, line } => flat.put(
            Code::Return {
                condition: *condition,
            },
            *line,
        ),
    }
}

/// Puts the flat lines of a line inside a parenthesis before those that are there.
#[cycle(inside)]
fn put_inside_line<'a>(
    tables: &Tables<'a>,
    unit: usize,
    line: &Line<'a>,
    flat: &mut Flat,
) -> Result<(), AllocError>
    ensures { OnOk result
        ((scope : Scope) (rest : Lines) (first : FlatLines) → IsScope tables.now unit scope
        → IsInsideLowerable scope (line_view line.now rest)
        → AddsLines scope rest first flat.old
        → AddsLines scope (line_view line.now rest) first flat.new) }
{
    match &line.instr {
        Some(instr) => put_instr(tables, unit, instr, 0, flat),
        None => Ok(()),
    }
}

/// Puts the flat lines of the lines inside a parenthesis before those that are there.
#[cycle(inside)]
fn put_inside<'a>(
    tables: &Tables<'a>,
    unit: usize,
    lines: &Vec<Line<'a>>,
    flat: &mut Flat,
) -> Result<(), AllocError>
    ensures { OnOk result
        ((scope : Scope) → IsScope tables.now unit scope
        → IsInsideLowerable scope (lines_view lines.now.items)
        → AddsLines scope (lines_view lines.now.items) flat.old flat.new) }
{
    for index in (0..lines.len()).rev() {
        let Some(last) = lines.get(index) else {
            continue;
        };
        put_inside_line(tables, unit, last, flat)?;
    }
    Ok(())
}
