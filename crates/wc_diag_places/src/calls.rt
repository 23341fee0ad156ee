ghost use Rattle.std.specs.Prelude.{◌≡◌, ◌⊎◌, ◌≤◌, ◌+◌, true, IfOk};
ghost use Rattle.wc_diag_places.specs.Arguments.{IsArgumentAt, PointsToBroken, argument_count, argument_from};
ghost use Rattle.wc_diag_places.specs.OperandTokens.{IsOfCall, begins_item, list_end, operator_of, tokens_at};
ghost use Rattle.wc_model.specs.Language.Scopes.{Scope};
ghost use Rattle.wc_verify.specs.Seeing.{IsScope};

use crate::arguments::{BrokenItem, first_broken_argument, item_after, text_at};
use crate::kinds::{entity_in, is_bit};
use crate::operand_tokens::{case_of_operand, line_at, list_end, operator_of, tokens_at};
use std::alloc::Global;
use wc_diag_texts::Case;
use wc_lexer::{Shape, Token};
use wc_model::{Direction, Fault, Kind};
use wc_names::{DeclaredType, Tables};

/// The offending tokens of a call, and in which way its rule is broken.
#[derive(Clone, Copy)]
pub struct InCall {
    from: usize,
    count: usize,
    pub case: Case,
    /// Where the name of the offending input or output is; 0: there is none.
    pub name: usize,
    /// Whether it is passed to the block, and not read.
    pub is_passed: bool,
    /// The line of the first of two that have one name; 0: there are no two.
    pub first: u32,
}

/// One token of a call.
pub(crate) fn at_index(from: usize, case: Case) -> InCall
    ensures from { result.from ≡ from }
    ensures one { result.count ≡ 1 }
{
    InCall {
        from,
        count: 1,
        case,
        name: 0,
        is_passed: false,
        first: 0,
    }
}

/// In which way a name of a call's list is not one that the block has in that direction.
fn unknown_formal(
    tables: &Tables<'_>,
    declared: DeclaredType,
    direction: Direction,
    name: &[u8],
) -> Case {
    let (other, mistaken) = match direction {
        Direction::Into => (Direction::OutOf, Case::OutputAssigned),
        Direction::OutOf => (Direction::Into, Case::InputArrow),
    };
    if tables.formal(declared, other, name).is_some() {
        return mistaken;
    }
    match declared {
        DeclaredType::Standard(block) => Case::NotOfBlock(block),
        _ => Case::NotOfOwnBlock,
    }
}

/// The line of the first name of a list that is this one.
fn first_line_of(tokens: &[Token<'_>], name: &[u8], end: usize) -> u32 {
    let mut item = item_after(tokens, 2);
    for _item in 0..end {
        if text_at(tokens, item.name).eq_ignore_ascii_case(name) {
            return line_at(tokens.get(item.name));
        }
        item = item_after(tokens, item.end);
    }
    0
}

/// In which way one of a call's list breaks the rule of its number; a bit is passed to a BOOL.
fn case_of_argument<'a>(
    tables: &Tables<'a>,
    unit: usize,
    declared: DeclaredType,
    tokens: &[Token<'a>],
    broken: BrokenItem,
) -> Case {
    let (item, name) = (broken.item, text_at(tokens, broken.item.name));
    let operand = tokens_at(tokens, item.value, item.count);
    let takes_bit = item.direction == Direction::Into && is_bit(operand);
    let formal = tables.formal(declared, item.direction, name);
    match (broken.number, entity_in(tables, unit, operand), formal) {
        (401, _, _) => case_of_operand(operand),
        (402, Some(entity), Some(formal)) => match entity.kind {
            None => Case::Instance,
            Some(kind) if kind == formal.kind => Case::Result,
            Some(_) if takes_bit && formal.kind == Kind::Bool => Case::Result,
            Some(kind) => Case::Unpassed(kind, formal.kind),
        },
        (409, _, _) => unknown_formal(tables, declared, item.direction, name),
        _ => Case::Plain,
    }
}

/// What a refusal refers to in one of a call's list: of 409 and 410 its name, else its value.
fn offending_argument<'a>(
    tables: &Tables<'a>,
    unit: usize,
    declared: DeclaredType,
    tokens: &[Token<'a>],
    broken: BrokenItem,
) -> InCall
    ensures from { result.from ≡ argument_from broken.number broken.item }
    ensures count { result.count ≡ argument_count broken.number broken.item }
{
    let item = broken.item;
    let case = case_of_argument(tables, unit, declared, tokens, broken);
    let is_passed = item.direction == Direction::Into;
    match broken.number {
        409 => InCall {
            is_passed,
            ..at_index(item.name, case)
        },
        410 => InCall {
            first: first_line_of(tokens, text_at(tokens, item.name), list_end(tokens)),
            ..at_index(item.name, case)
        },
        _ => InCall {
            count: item.count,
            name: item.name,
            is_passed,
            ..at_index(item.value, case)
        },
    }
}

/// A refusal that no argument explains: of what is before the list.
fn no_argument(number: u16) -> InCall {
    match number {
        403 => at_index(0, Case::Plain),
        _ => at_index(0, Case::Result),
    }
}

/// The offending slice in the list of a call of an instance; else the operator.
fn offending_in_list<'a>(
    alloc: Global,
    tables: &Tables<'a>,
    unit: usize,
    declared: DeclaredType,
    tokens: &[Token<'a>],
    number: u16,
) -> Result<InCall, Fault>
    ensures { IfOk result (λ call. PointsToBroken number tables.now unit declared tokens.now
        call.from call.count) }
{
    let Some(broken) = first_broken_argument(alloc, tables, unit, declared, tokens)? else {
        return Ok(no_argument(number));
    };
    if broken.number != number {
        return Ok(no_argument(number));
    }
    Ok(offending_argument(tables, unit, declared, tokens, broken))
}

/// The offending slice in a call with a list.
pub fn offending_in_call<'a>(
    alloc: Global,
    tables: &Tables<'a>,
    unit: usize,
    tokens: &[Token<'a>],
    number: u16,
) -> Result<InCall, Fault>
    ensures { IfOk result (λ call. (scope : Scope) → IsScope tables.now unit scope
        → IsArgumentAt scope number tokens.now call.from call.count) }
{
    match tables.variable(unit, text_at(tokens, 1)) {
        Some(found) => match found.declared {
            DeclaredType::Elementary(_) => Ok(at_index(1, Case::NoInstance)),
            _ => offending_in_list(alloc, tables, unit, found.declared, tokens, number),
        },
        None => Ok(at_index(usize::from(number == 401), Case::Plain)),
    }
}

/// Whether the instance of a call, or a name or a value of its list, may begin at an index.
fn begins_item(tokens: &[Token<'_>], index: usize) -> bool
    ensures { result ≡ begins_item tokens.now index }
{
    if index == 1 {
        return true;
    }
    match tokens.get(index.saturating_sub(1)) {
        Some(token) => match token.shape {
            Shape::Opening | Shape::Comma | Shape::Assign | Shape::Arrow | Shape::LineEnd => true,
            _ => false,
        },
        None => false,
    }
}

/// The offending tokens, where they are in the call; else the operator.
pub fn operand_of_call<'a, 't>(tokens: &'t [Token<'a>], call: InCall) -> &'t [Token<'a>]
    ensures some { (result.now ≡ operator_of tokens.now) ⊎ IsOfCall tokens.now result.now }
    ensures there { call.from + call.count ≤ list_end tokens.now
        → begins_item tokens.now call.from ≡ true
        → result.now ≡ tokens_at tokens.now call.from call.count }
{
    let end = list_end(tokens);
    if call.from > end || call.count > end - call.from || !begins_item(tokens, call.from) {
        return operator_of(tokens);
    }
    tokens_at(tokens, call.from, call.count)
}
