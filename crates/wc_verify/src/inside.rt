ghost use Rattle.std.specs.Prelude.{◌≡◌, List, Option, option_map};
ghost use Rattle.wc_model.specs.Definitions.{Check, BodyLine, NestedLine, opening_kind, Scope, Word, Lines, Term, End, line_view, lines_view, term_view};
ghost use Rattle.wc_verify.specs.Instructions.{GoesInside, GoesOn, SaysAhead, instr_line};
ghost use Rattle.wc_verify.specs.Seeing.{IsScope, IsSeenIfAny};

use crate::instructions::{apply, call, jump, kind_following, load, store};
use crate::refusals::{refuse, validate_condition, validate_truth};
use crate::seen::{OperandFacts, see};
use crate::steps::{validate_closing, validate_opening};
use std::alloc::Global;
use wc_built_in::kind_after_operator;
use wc_model::{Fault, Instr, Kind, Line, Operand, Operator};
use wc_names::Tables;

/// What the operand on an opening line names, if one is written.
fn see_if_any<'a>(
    tables: &Tables<'a>,
    unit: usize,
    operand: &Option<Operand<'a>>,
) -> Option<OperandFacts>
    ensures { (scope : Scope) → IsScope tables.now unit scope
        → IsSeenIfAny scope (option_map term_view operand.now) result }
{
    let operand = operand.as_ref()?;
    Some(see(tables, unit, operand))
}

/// The kind with which the lines inside a parenthesis start.
fn opening_kind(seen: Option<OperandFacts>) -> Option<Kind>
    ensures { (scope : Scope) (term : Option Term) → IsSeenIfAny scope term seen
        → opening_kind scope term ≡ result }
{
    seen?.kind
}

/// Checks an opening line, the lines inside, and the `)`.
#[cycle(inside)]
fn validate_nested<'a>(
    alloc: Global,
    tables: &Tables<'a>,
    unit: usize,
    operator: Operator,
    operand: &Option<Operand<'a>>,
    inside: &Vec<Line<'a>>,
    line: u32,
    close: u32,
    kind: Option<Kind>,
) -> Result<Option<Kind>, Fault>
    ensures { (scope : Scope) (label : Option Word) (following : List BodyLine) (more : List Check)
        → IsScope tables.now unit scope
        → GoesOn scope
        (NestedLine label line operator (option_map term_view operand.now)
        (lines_view inside.now.items) close) following kind more result }
{
    let seen = see_if_any(tables, unit, operand);
    refuse(validate_opening(operator, seen, kind), line)?;
    let inner = validate_inside(alloc, tables, unit, inside, opening_kind(seen))?;
    kind_following(
        refuse(validate_closing(kind, inner), close),
        kind_after_operator(operator, kind),
    )
}

/// Checks an instruction, from the kind of the result before it.
#[cycle(inside)]
pub(crate) fn validate_instr<'a>(
    alloc: Global,
    tables: &Tables<'a>,
    unit: usize,
    instr: &Instr<'a>,
    is_ahead: bool,
    kind: Option<Kind>,
) -> Result<Option<Kind>, Fault>
    ensures { (scope : Scope) (label : Option Word) (following : List BodyLine) (more : List Check)
        → IsScope tables.now unit scope → SaysAhead (instr_line instr.now label) is_ahead following
        → GoesOn scope (instr_line instr.now label) following kind more result }
{
    match instr {
        Instr::Load {
            negated,
            operand,
            line,
        } => load(tables, unit, *negated, operand, *line),
        Instr::Store {
            storing,
            target,
            line,
        } => store(tables, unit, *storing, target, *line, kind),
        Instr::Apply {
            operator,
            operand,
            line,
        } => apply(tables, unit, *operator, operand, *line, kind),
        Instr::Defer {
            operator,
            operand,
            inside,
            line,
            close,
        } => validate_nested(
            alloc, tables, unit, *operator, operand, inside, *line, *close, kind,
        ),
        Instr::Not { line } => kind_following(refuse(validate_truth(kind), *line), kind),
        Instr::Jump {
            condition,
            label,
            line,
        } => jump(is_ahead, *condition, label, *line, kind),
        Instr::Call {
            condition,
            instance,
            arguments,
            line,
        } => call(
            alloc, tables, unit, *condition, instance, arguments, *line, kind,
        ),
        Instr::Return { condition, line } => kind_following(
            refuse(validate_condition(*condition, kind), *line),
            kind,
        ),
    }
}

/// Checks a line inside a parenthesis, whatever its label.
#[cycle(inside)]
fn validate_inside_line<'a>(
    alloc: Global,
    tables: &Tables<'a>,
    unit: usize,
    line: &Line<'a>,
    kind: Option<Kind>,
) -> Result<Option<Kind>, Fault>
    ensures { (scope : Scope) (rest : Lines) (more : List Check) → IsScope tables.now unit scope
        → GoesInside scope (line_view line.now rest) kind rest more result }
{
    match &line.instr {
        Some(instr) => validate_instr(alloc, tables, unit, instr, false, kind),
        None => Ok(kind),
    }
}

/// Checks the lines inside a parenthesis: the kind of the result after them.
#[cycle(inside)]
fn validate_inside<'a>(
    alloc: Global,
    tables: &Tables<'a>,
    unit: usize,
    lines: &Vec<Line<'a>>,
    first: Option<Kind>,
) -> Result<Option<Kind>, Fault>
    ensures { (scope : Scope) (more : List Check) → IsScope tables.now unit scope
        → GoesInside scope (lines_view lines.now.items) first End more result }
{
    let mut kind = first;
    for line in lines {
        kind = validate_inside_line(alloc, tables, unit, line, kind)?;
    }
    Ok(kind)
}
