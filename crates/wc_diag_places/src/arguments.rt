ghost use Rattle.std.specs.Prelude.{◌≡◌, ◌≤◌, ◌+◌, IfOk, None, length, min, option_copied};
ghost use Rattle.std.specs.List.{position_or_len};
ghost use Rattle.wc_diag_places.specs.Arguments.{FindsBroken, KeepsNames, RuleIs};
ghost use Rattle.wc_diag_places.specs.Lists.{direction_of, is_mark_shape, item_after, mark_after, text_at, value_end};

use crate::kinds::operand_in;
use crate::operand_tokens::{is_point, list_end, tokens_at};
use std::alloc::Global;
use wc_lexer::{Shape, Token};
use wc_model::{Argument, Direction, Fault};
use wc_names::{DeclaredType, Names, Tables};
use wc_verify::validate_argument;

/// One of a call's list: where its name and its value are, and the comma or `)` after it.
#[derive(Clone, Copy)]
pub(crate) struct ListItem {
    pub(crate) name: usize,
    pub(crate) value: usize,
    pub(crate) count: usize,
    pub(crate) direction: Direction,
    pub(crate) end: usize,
}

/// A token ends no line.
fn is_mark(token: &Token<'_>) -> bool
    ensures { result ≡ is_mark_shape token.now.shape }
{
    !matches!(token.shape, Shape::LineEnd)
}

/// The number of tokens that end a line before one that does not.
fn line_ends(tokens: &[Token<'_>]) -> usize
    ensures count { result ≡ position_or_len (λ token. is_mark_shape token.shape) tokens.now }
    ensures within { result ≤ length tokens.now }
{
    tokens.iter().take_while(|token| !is_mark(token)).count()
}

/// The first index after one whose token ends no line.
fn mark_after(tokens: &[Token<'_>], index: usize) -> usize
    ensures mark { result ≡ mark_after tokens.now index }
    ensures within { result ≤ length tokens.now }
    ensures ahead { min (index + 1) (length tokens.now) ≤ result }
{
    let from = index.saturating_add(1).min(tokens.len());
    let (_, rest) = tokens.split_at(from);
    from + line_ends(rest)
}

/// What the sign of an item says.
fn direction_of(sign: Option<&Token<'_>>) -> Direction
    ensures { result ≡ direction_of (option_copied sign.entry) }
{
    match sign {
        Some(token) if matches!(token.shape, Shape::Arrow) => Direction::OutOf,
        _ => Direction::Into,
    }
}

/// The last token of a value.
fn value_end(tokens: &[Token<'_>], value: usize) -> usize
    requires { value ≤ length tokens.now }
    ensures end { result ≡ value_end tokens.now value }
    ensures within { result ≤ length tokens.now }
{
    let point = mark_after(tokens, value);
    if is_point(tokens.get(point)) {
        mark_after(tokens, point)
    } else {
        value
    }
}

/// One of a call's list, after the `(` or the comma at an index.
pub(crate) fn item_after(tokens: &[Token<'_>], index: usize) -> ListItem
    ensures { result ≡ item_after tokens.now index }
{
    let name = mark_after(tokens, index);
    let sign = mark_after(tokens, name);
    let value = mark_after(tokens, sign);
    let last = value_end(tokens, value);
    ListItem {
        name,
        value,
        count: last.saturating_sub(value) + 1,
        direction: direction_of(tokens.get(sign)),
        end: mark_after(tokens, last),
    }
}

/// The text of the token at an index.
pub(crate) fn text_at<'a>(tokens: &[Token<'a>], index: usize) -> &'a [u8]
    ensures { result.now ≡ text_at tokens.now index }
{
    tokens.get(index).map(|token| token.text).unwrap_or(b"")
}

/// One of a call's list that breaks a rule, with the number of the rule.
#[derive(Clone, Copy)]
pub(crate) struct BrokenItem {
    pub(crate) item: ListItem,
    pub(crate) number: u16,
}

/// The rule that the verifier finds broken by one of a call's list, after those whose names are kept. The name is kept too.
fn broken_rule<'a>(
    names: &mut Names<'a>,
    tables: &Tables<'a>,
    unit: usize,
    declared: DeclaredType,
    tokens: &[Token<'a>],
    item: ListItem,
) -> Result<Option<u16>, Fault>
    ensures rule { IfOk result (RuleIs tables.now unit declared tokens.now names.old item) }
    ensures held { IfOk result
        (λ found. found ≡ None → KeepsNames tokens.now names.old names.new item) }
{
    let Some(value) = operand_in(tokens_at(tokens, item.value, item.count)) else {
        return Ok(Some(401));
    };
    let argument = Argument {
        direction: item.direction,
        name: text_at(tokens, item.name),
        value,
    };
    match validate_argument(tables, unit, declared, names, &argument, 0) {
        Ok(()) => Ok(None),
        Err(fault) => match fault {
            Fault::Refused { number, .. } => Ok(Some(number)),
            Fault::Memory => Err(Fault::Memory),
        },
    }
}

/// The first in the list of a call that breaks a rule, and that rule; nothing if none does.
pub(crate) fn first_broken_argument<'a>(
    alloc: Global,
    tables: &Tables<'a>,
    unit: usize,
    declared: DeclaredType,
    tokens: &[Token<'a>],
) -> Result<Option<BrokenItem>, Fault>
    ensures { IfOk result (λ found. FindsBroken tables.now unit declared tokens.now found) }
{
    let mut names = Names::new(alloc);
    let end = list_end(tokens);
    let mut item = item_after(tokens, 2);
    for _number in 0..end {
        if item.name >= end {
            return Ok(None);
        }
        let found = broken_rule(&mut names, tables, unit, declared, tokens, item)?;
        if let Some(number) = found {
            return Ok(Some(BrokenItem { item, number }));
        }
        item = item_after(tokens, item.end);
    }
    Ok(None)
}
