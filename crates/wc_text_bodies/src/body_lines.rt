ghost use Rattle.std.specs.Prelude.{◌≡◌, ◌≤◌, length, IfOk, IfSome, List, OnOk, option_map};
ghost use Rattle.wc_lexer.specs.Views.{token_view};
ghost use Rattle.wc_model.specs.Definitions.{ProgramUnit, term_view, mark_of_token};
ghost use Rattle.wc_text_bodies.specs.Views.{IsCounted, position_view};
ghost use Rattle.wc_text_lines.specs.LineViews.{step_view};
ghost use Rattle.wc_text_lines.specs.Words.{operation_view, symbol_view};
ghost use Rattle.wc_text_bodies.specs.Several.{Begins, IsLine, Makes, TakesLines, operand_of};

use crate::bodies::{Body, add_label, add_step, is_full, section_of_word};
use crate::section_lines::empty_line;
use std::alloc::{AllocError, Global};
use wc_lexer::{Shape, Token};
use wc_model::{Operand, Value};
use wc_text_lines::{
    OpenCall, Operation, StartedLine, Step, ends_unit, operation_named, truth, word,
};

/// The operand that the token is by itself.
#[inline(always)]
pub fn operand_of<'a>(token: Token<'a>) -> Option<Operand<'a>>
    ensures { option_map term_view result
        ≡ operand_of (symbol_view token.entry) token.entry.line }
{
    match token.shape {
        Shape::Identifier => match truth(token.text) {
            Some(value) => Some(Operand::Literal(Value::Bool(value))),
            None => Some(Operand::Name(token.text)),
        },
        Shape::Whole(number) => Some(Operand::Literal(Value::Dint(number))),
        Shape::Duration(milliseconds) => Some(Operand::Literal(Value::Time(milliseconds))),
        Shape::Truth(value) => Some(Operand::Literal(Value::Bool(value))),
        Shape::Address => Some(Operand::Address(word(token))),
        _ => None,
    }
}

/// The instruction that the operator and the token after it are, if the line ends there.
fn step_with<'a>(alloc: Global, operation: Operation, token: Token<'a>) -> Option<Step<'a>>
    ensures { IfSome result
        (λ step.
        Makes (operation_view operation) (mark_of_token (token_view token.entry))
        (step_view step)) }
{
    match (operation, token.shape) {
        (Operation::Operates(operating), _) => Some(Step::Operate(operating, operand_of(token)?)),
        (Operation::Jumps(when), Shape::Identifier) => Some(Step::Jump(when, word(token))),
        (Operation::Calls(condition), Shape::Identifier) => Some(Step::Call(OpenCall {
            condition,
            instance: word(token),
            arguments: Vec::new(alloc),
        })),
        _ => None,
    }
}

/// The operator that the word is at the start of a line with no parenthesis open, if it is
/// neither a line too many, the end of the unit nor the start of a section.
#[inline(always)]
pub(crate) fn operation_at<'a>(body: &Body<'a>, text: &[u8]) -> Option<Operation>
    requires { IsCounted body.now }
    ensures { IfSome result
        (λ operation. (units : List ProgramUnit)
        → Begins (position_view units body.now) text.now (operation_view operation)) }
{
    if is_full(body) || !body.openings.is_empty() || ends_unit(text, body.unit.kind) {
        return None;
    }
    match section_of_word(&body.done, text) {
        Some(_) => None,
        None => operation_named(text),
    }
}

/// The instruction that the two tokens are, if a line is no more than these.
fn step_at<'a>(
    alloc: Global,
    body: &Body<'a>,
    first: Token<'a>,
    second: Token<'a>,
) -> Option<Step<'a>>
    requires { IsCounted body.now }
    ensures { IfSome result
        (λ step. (units : List ProgramUnit)
        → IsLine (position_view units body.now) (mark_of_token (token_view first.entry))
        (mark_of_token (token_view second.entry)) (step_view step)) }
{
    match first.shape {
        Shape::Identifier => step_with(alloc, operation_at(body, first.text)?, second),
        _ => None,
    }
}

/// Reads a label alone on its line with no parenthesis open, and returns the number of its tokens:
/// none if none is here.
#[inline(always)]
fn take_label<'a>(body: &mut Body<'a>, tokens: &[Token<'a>]) -> Result<usize, AllocError>
    requires { IsCounted body.old }
    ensures goes_on { IfOk result (λ taken. TakesLines body.old tokens.now taken body.new) }
    ensures counted { OnOk result (IsCounted body.new) }
    ensures within { IfOk result (λ taken. taken ≤ length tokens.now) }
{
    let [label, colon, end, ..] = tokens else {
        return Ok(0);
    };
    if !body.openings.is_empty() {
        return Ok(0);
    }
    let (Shape::Identifier, Shape::Colon, Shape::LineEnd) = (label.shape, colon.shape, end.shape)
    else {
        return Ok(0);
    };
    add_label(body, word(*label))?;
    Ok(3)
}

/// Reads an empty line and a label alone, if each is here, and returns the number of their
/// tokens.
#[inline(always)]
fn take_empty<'a>(body: &mut Body<'a>, tokens: &[Token<'a>]) -> Result<usize, AllocError>
    requires { IsCounted body.old }
    ensures goes_on { IfOk result (λ taken. TakesLines body.old tokens.now taken body.new) }
    ensures counted { OnOk result (IsCounted body.new) }
    ensures within { IfOk result (λ taken. taken ≤ length tokens.now) }
{
    let empty = empty_line(tokens);
    let (_, following) = tokens.split_at(empty);
    let taken = take_label(body, following)?;
    Ok(empty + taken)
}

/// Reads a line of an operator with its operand, its label or its instance, and returns the number of its tokens:
/// none if no such line is here.
#[inline(always)]
fn take_step<'a>(
    alloc: Global,
    body: &mut Body<'a>,
    tokens: &[Token<'a>],
) -> Result<usize, AllocError>
    requires { IsCounted body.old }
    ensures goes_on { IfOk result (λ taken. TakesLines body.old tokens.now taken body.new) }
    ensures counted { OnOk result (IsCounted body.new) }
    ensures within { IfOk result (λ taken. taken ≤ length tokens.now) }
{
    let [first, second, third, ..] = tokens else {
        return Ok(0);
    };
    let Shape::LineEnd = third.shape else {
        return Ok(0);
    };
    match step_at(alloc, body, *first, *second) {
        Some(step) => {
            let started = StartedLine {
                label: None,
                line: first.line,
            };
            add_step(body, started, step)?;
            Ok(3)
        }
        None => Ok(0),
    }
}

/// Reads a short line in place, after an empty one and a label alone if each is here, and
/// returns the number of their tokens.
#[inline(always)]
pub(crate) fn take_line<'a>(
    alloc: Global,
    body: &mut Body<'a>,
    tokens: &[Token<'a>],
) -> Result<usize, AllocError>
    requires { IsCounted body.old }
    ensures goes_on { IfOk result (λ taken. TakesLines body.old tokens.now taken body.new) }
    ensures counted { OnOk result (IsCounted body.new) }
    ensures within { IfOk result (λ taken. taken ≤ length tokens.now) }
{
    let before = take_empty(body, tokens)?;
    let (_, following) = tokens.split_at(before);
    let taken = take_step(alloc, body, following)?;
    Ok(before + taken)
}
