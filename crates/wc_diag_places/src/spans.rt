ghost use Rattle.std.specs.Prelude.{◌≡◌, true, None, IfOk, IfNone, IfSome};
ghost use Rattle.wc_model.specs.Definitions.{declaration_fault, Scope};
ghost use Rattle.wc_names.specs.RepresentsText.{AreTables};
ghost use Rattle.wc_diag_places.specs.Arguments.{IsArgument};
ghost use Rattle.wc_diag_places.specs.LaterSpans.{IsAccepted, IsBodyFault, IsTokenFault, OfRead, OfRefusal, PointsTo, RefusesLater};
ghost use Rattle.wc_verify.specs.Seeing.{IsScope};
ghost use Rattle.wc_diag_places.specs.OperandTokens.{IsOperatorOrOperand, IsOperandOf, is_listed, on_line, operator_of, operand_by_number};

use crate::arguments::text_at;
use crate::calls::{InCall, at_index, offending_in_call, operand_of_call};
use crate::declarations::{block_in, case_of_capacity, first_of_two, unit_at};
use crate::kinds::unfit;
use crate::operand_tokens::{
    case_of_operand, is_listed, line_at, opens, operand_of, operator_of, slice_of, span_of,
    tokens_at, tokens_from,
};
use crate::results::{paths_to_label, results_at};
use crate::spanned_source::SpannedSource;
use std::alloc::Global;
use wc_cost::measure;
use wc_declare::tables;
use wc_diag_stops::{RefusalSpan, ResultKind};
use wc_diag_texts::Case;
use wc_lexer::{Shape, Token};
use wc_model::Fault;
use wc_names::Tables;
use wc_verify::validate_bodies;

/// A refusal with its slice; `tokens` begin where the rule is asked.
fn span_at(tokens: &[Token<'_>], number: u16, operand_tokens: &[Token<'_>]) -> RefusalSpan
    ensures { PointsTo number tokens.now operand_tokens.now result }
{
    let place = line_at(tokens.first());
    let (start, length) = span_of(operand_tokens);
    RefusalSpan::new(Fault::Refused { number, place }, start, length)
}

/// The line of the first of two that have the name at a place; 0: there are no two.
fn first_line(spanned: &SpannedSource<'_>, number: u16, tokens: &[Token<'_>], place: u32) -> u32 {
    // A jump names its label after the operator.
    let name = text_at(tokens, usize::from(number == 406));
    match first_of_two(&spanned.source, number, name, place) {
        Some(first) => line_at(tokens_from(&spanned.tokens, first).first()),
        None => 0,
    }
}

/// A refusal of pass 3 or of the costs: its slice is the token at the place.
fn span_of_name(spanned_source: &SpannedSource<'_>, fault: Fault) -> RefusalSpan
    ensures { OfRead spanned_source.now (λ bytes text. OfRefusal fault (IsTokenFault text)
        → RefusesLater bytes result.fault result.start result.length) }
{
    let Fault::Refused { number, place } = fault else {
        return RefusalSpan::new(Fault::Memory, 0, 0);
    };
    let tokens = tokens_from(&spanned_source.tokens, place);
    let case = match number {
        306 => case_of_capacity(&spanned_source.source, place),
        _ => Case::Plain,
    };
    RefusalSpan {
        case,
        first: first_line(spanned_source, number, tokens, place),
        ..span_at(tokens, number, operator_of(tokens))
    }
}

/// The offending tokens of an instruction, and what is known of them.
type Found<'a, 't> = (&'t [Token<'a>], InCall);

/// The offending slice in an instruction without a list whose kinds do not fit.
fn found_unfit<'a, 't>(tables: &Tables<'a>, unit: usize, tokens: &'t [Token<'a>]) -> Found<'a, 't>
    ensures { IsOperatorOrOperand tokens.now result.0.now }
{
    let operand = operand_of(tokens);
    let case = unfit(tables, unit, tokens, operand);
    match case {
        Case::Result | Case::Closing => (operator_of(tokens), at_index(0, case)),
        _ => (operand, at_index(0, case)),
    }
}

/// What a refusal of that number means in an instruction without a list.
fn found_by_number<'a, 't>(tokens: &'t [Token<'a>], number: u16) -> Found<'a, 't>
    ensures { result.0.now ≡ operand_by_number number tokens.now }
{
    let operand = operand_of(tokens);
    match number {
        408 if opens(tokens) => (operator_of(tokens), at_index(0, Case::Deferred)),
        401 | 404 | 405 | 406 | 408 => (operand, at_index(0, case_of_operand(operand))),
        _ => (operator_of(tokens), at_index(0, Case::Plain)),
    }
}

/// The offending slice in an instruction.
fn found_in<'a, 't>(
    alloc: Global,
    tables: &Tables<'a>,
    unit: usize,
    tokens: &'t [Token<'a>],
    number: u16,
) -> Result<Found<'a, 't>, Fault>
    ensures operand_tokens { IfOk result
        (λ found. IsOperandOf number tokens.now found.0.now) }
    ensures argument { IfOk result (λ found. (scope : Scope) → IsScope tables.now unit scope
        → is_listed tokens.now ≡ true → IsArgument scope number tokens.now
        found.0.now) }
{
    if !is_listed(tokens) {
        return Ok(match number {
            402 => found_unfit(tables, unit, tokens),
            _ => found_by_number(tokens, number),
        });
    }
    let call = offending_in_call(alloc, tables, unit, tokens, number)?;
    Ok((operand_of_call(tokens, call), call))
}

/// The offending tokens, if they begin on the line of their instruction; else the operator.
fn on_line<'a, 't>(tokens: &'t [Token<'a>], offending: &'t [Token<'a>]) -> &'t [Token<'a>]
    ensures { result.now ≡ on_line tokens.now offending.now }
{
    if line_at(offending.first()) == line_at(tokens.first()) {
        return offending;
    }
    operator_of(tokens)
}

/// The kinds of the result before the instruction at a place, and before the parenthesis that it closes, if that is what does not fit.
fn results_before(
    spanned_source: &SpannedSource<'_>,
    tables: &Tables<'_>,
    unit: usize,
    place: u32,
    case: Case,
) -> (Option<ResultKind>, Option<ResultKind>) {
    let Some(source) = spanned_source.source.units.get(unit) else {
        return (None, None);
    };
    let (before, outer) = results_at(tables, unit, &source.body, place);
    let before = on_its_line(spanned_source, before);
    match case {
        Case::Unlike(_) | Case::Result => (before, None),
        Case::Closing => (before, on_its_line(spanned_source, outer)),
        _ => (None, None),
    }
}

/// A result with the line in place of the place.
fn on_its_line(spanned_source: &SpannedSource<'_>, made: Option<ResultKind>) -> Option<ResultKind> {
    let mut made = made?;
    made.line = line_at(tokens_from(&spanned_source.tokens, made.line).first());
    Some(made)
}

/// A refusal of pass 4 with the offending slice in its instruction.
fn span_of_instruction<'a>(
    alloc: Global,
    spanned_source: &SpannedSource<'a>,
    tables: &Tables<'a>,
    fault: Fault,
) -> RefusalSpan
    ensures { OfRead spanned_source.now (λ bytes text. AreTables tables.now text
        → OfRefusal fault (IsBodyFault text)
        → RefusesLater bytes result.fault result.start result.length) }
{
    let Fault::Refused { number, place } = fault else {
        return RefusalSpan::new(Fault::Memory, 0, 0);
    };
    let tokens = tokens_from(&spanned_source.tokens, place);
    let unit = unit_at(&spanned_source.source, place);
    let Ok(found) = found_in(alloc, tables, unit, tokens, number) else {
        return RefusalSpan::new(Fault::Memory, 0, 0);
    };
    let (offending, call) = found;
    let (result, outer) = results_before(spanned_source, tables, unit, place, call.case);
    let paths = match number {
        403 => paths_to_label(spanned_source, tables, unit, place),
        _ => None,
    };
    let below = slice_of(offending);
    RefusalSpan {
        case: call.case,
        first: first_line(spanned_source, number, tokens, place).max(call.first),
        result,
        outer,
        paths,
        formal: slice_of(tokens_at(tokens, call.name, usize::from(call.name > 0))),
        is_passed: call.is_passed,
        block: block_in(&spanned_source.source, unit, tokens, offending, call.case),
        below: below.filter(|slice| slice.line != line_at(tokens.first())),
        ..span_at(tokens, number, on_line(tokens, offending))
    }
}

/// Where pass 4 or the costs refuse a text with these tables.
fn span_after<'a>(
    alloc: Global,
    spanned_source: &SpannedSource<'a>,
    tables: &Tables<'a>,
) -> Option<RefusalSpan>
    ensures refused { OfRead spanned_source.now (λ bytes text. AreTables tables.now text
        → declaration_fault text ≡ None
        → IfSome result
        (λ span. RefusesLater bytes span.fault span.start span.length)) }
    ensures accepted { OfRead spanned_source.now (λ bytes text. AreTables tables.now text
        → declaration_fault text ≡ None → IfNone result (IsAccepted text)) }
{
    if let Err(fault) = validate_bodies(alloc, &spanned_source.source, tables) {
        return Some(span_of_instruction(alloc, spanned_source, tables, fault));
    }
    match measure(alloc, &spanned_source.source, tables) {
        Ok(()) => None,
        Err(fault) => Some(span_of_name(spanned_source, fault)),
    }
}

/// Where a pass after reading refuses a text that was read by places: the rule that it breaks first,
/// the line on which that is asked, and the offending slice; nothing if none refuses it. It
/// takes the passes themselves, once more.
pub fn span_in<'a>(alloc: Global, spanned_source: &SpannedSource<'a>) -> Option<RefusalSpan>
    ensures refused { OfRead spanned_source.now
        (λ bytes _. IfSome result
        (λ span. RefusesLater bytes span.fault span.start span.length)) }
    ensures accepted { OfRead spanned_source.now (λ _ text. IfNone result (IsAccepted text)) }
{
    match tables(alloc, &spanned_source.source) {
        Ok(tables) => span_after(alloc, spanned_source, &tables),
        Err(fault) => Some(span_of_name(spanned_source, fault)),
    }
}
