ghost use Rattle.std.specs.Prelude.{◌≡◌, ◌≤◌, length, drop, IfOk, IfSome, List, OnOk};
ghost use Rattle.wc_laws_grammar.specs.LineMoves as lines;
ghost use Rattle.wc_laws_grammar.specs.Moves as moves;
ghost use Rattle.wc_lexer.specs.Views.{token_view};
ghost use Rattle.wc_model.specs.Definitions.{ProgramUnit, assignment_view, sign_of, mark_of_token};
ghost use Rattle.wc_text_bodies.specs.Views.{IsCounted, position_view};
ghost use Rattle.wc_text_lines.specs.LineViews.{listed_view};
ghost use Rattle.wc_text_lines.specs.Words.{marks_of};
ghost use Rattle.wc_text_bodies.specs.Several.{BeginsCall, GoesOn, IsArgument, TakesArguments, TakesLines, TakesList};

use crate::bodies::{Body, add_step};
use crate::body_lines::{operand_of, operation_at, take_line};
use std::alloc::{AllocError, Global};
use wc_lexer::{Shape, Token};
use wc_model::{Argument, Direction};
use wc_text_lines::{OpenCall, Operation, StartedLine, Step, word};

/// Which way a value goes by the sign between a formal and an actual parameter.
fn direction_of(sign: Token<'_>) -> Option<Direction>
    ensures { IfSome result
        (λ direction. (mark_of_token (token_view sign.entry)).symbol ≡ sign_of direction) }
{
    match sign.shape {
        Shape::Assign => Some(Direction::Into),
        Shape::Arrow => Some(Direction::OutOf),
        _ => None,
    }
}

/// The argument that the tokens are: an input or output, its `:=` or `=>` and an operand of one token.
fn argument_of<'a>(name: Token<'a>, sign: Token<'a>, operand: Token<'a>) -> Option<Argument<'a>>
    ensures { IfSome result
        (λ argument.
        IsArgument (mark_of_token (token_view name.entry)) (mark_of_token (token_view sign.entry))
        (mark_of_token (token_view operand.entry)) (assignment_view argument)) }
{
    match name.shape {
        Shape::Identifier => Some(Argument {
            direction: direction_of(sign)?,
            name: name.text,
            value: operand_of(operand)?,
        }),
        _ => None,
    }
}

/// Adds an argument after a call's others.
fn add_argument<'a>(call: &mut OpenCall<'a>, argument: Argument<'a>) -> Result<(), AllocError>
    ensures { OnOk result
        (listed_view call.new
        ≡ lines.with_argument (listed_view call.old)
        (lines.formal_of (assignment_view argument.entry))
        (assignment_view argument.entry).actual) }
{
    call.arguments.push(argument)?;
    Ok(())
}

/// Reads an argument and the comma after it, and returns the number of their tokens: none if they
/// are not here.
fn take_argument<'a>(call: &mut OpenCall<'a>, tokens: &[Token<'a>]) -> Result<usize, AllocError>
    ensures goes_on { IfOk result (λ taken. TakesArguments call.old tokens.now taken call.new) }
    ensures within { IfOk result (λ taken. taken ≤ length tokens.now) }
{
    let [input, assign, operand, comma, ..] = tokens else {
        return Ok(0);
    };
    let Shape::Comma = comma.shape else {
        return Ok(0);
    };
    let Some(argument) = argument_of(*input, *assign, *operand) else {
        return Ok(0);
    };
    add_argument(call, argument)?;
    Ok(4)
}

/// Reads the arguments that commas follow, and returns the number of their tokens.
fn take_arguments<'a>(call: &mut OpenCall<'a>, tokens: &[Token<'a>]) -> Result<usize, AllocError>
    ensures goes_on { IfOk result (λ taken. TakesArguments call.old tokens.now taken call.new) }
    ensures within { IfOk result (λ taken. taken ≤ length tokens.now) }
{
    let mut place = 0;
    for _index in 0..tokens.len() {
        let (_, left) = tokens.split_at(place);
        let next = place + take_argument(call, left)?;
        if next == place {
            return Ok(next);
        }
        place = next;
    }
    Ok(place)
}

/// Reads the last argument with the list's end and the line's, and returns the number of their
/// tokens: none if they are not here.
fn take_last<'a>(call: &mut OpenCall<'a>, tokens: &[Token<'a>]) -> Result<usize, AllocError>
    ensures ends { IfOk result (λ taken. TakesList call.old tokens.now taken call.new) }
    ensures within { IfOk result (λ taken. taken ≤ length tokens.now) }
{
    let [input, assign, operand, closing, end, ..] = tokens else {
        return Ok(0);
    };
    let (Shape::Closing, Shape::LineEnd) = (closing.shape, end.shape) else {
        return Ok(0);
    };
    let Some(argument) = argument_of(*input, *assign, *operand) else {
        return Ok(0);
    };
    add_argument(call, argument)?;
    Ok(5)
}

/// Reads a call's arguments with the list's end and the line's, and returns the number of their
/// tokens: none if no such list is here.
fn take_list<'a>(call: &mut OpenCall<'a>, tokens: &[Token<'a>]) -> Result<usize, AllocError>
    ensures ends { IfOk result (λ taken. TakesList call.old tokens.now taken call.new) }
    ensures within { IfOk result (λ taken. taken ≤ length tokens.now) }
{
    let before = take_arguments(call, tokens)?;
    let (_, following) = tokens.split_at(before);
    let last = take_last(call, following)?;
    Ok(if last == 0 { 0 } else { before + last })
}

/// The call whose list begins with these tokens: its operator, its instance, the bracket and the
/// first input.
fn call_at<'a>(
    alloc: Global,
    body: &Body<'a>,
    operator: Token<'a>,
    instance: Token<'a>,
    opening: Token<'a>,
    input: Token<'a>,
) -> Option<OpenCall<'a>>
    requires { IsCounted body.now }
    ensures { IfSome result
        (λ call. (units : List ProgramUnit)
        → BeginsCall (position_view units body.now) (mark_of_token (token_view operator.entry))
        (mark_of_token (token_view instance.entry)) (mark_of_token (token_view opening.entry))
        (mark_of_token (token_view input.entry)) (listed_view call)) }
{
    match (operator.shape, instance.shape, opening.shape, input.shape) {
        (Shape::Identifier, Shape::Identifier, Shape::Opening, Shape::Identifier) => {
            match operation_at(body, operator.text)? {
                Operation::Calls(condition) => Some(OpenCall {
                    condition,
                    instance: word(instance),
                    arguments: Vec::new(alloc),
                }),
                _ => None,
            }
        }
        _ => None,
    }
}

/// Reads a call with a list on one line, and returns the number of its tokens: none if no such
/// line is here.
fn take_call<'a>(
    alloc: Global,
    body: &mut Body<'a>,
    tokens: &[Token<'a>],
) -> Result<usize, AllocError>
    requires { IsCounted body.old }
    ensures goes_on { IfOk result (λ taken. TakesLines body.old tokens.now taken body.new) }
    ensures counted { OnOk result (IsCounted body.new) }
    ensures within { IfOk result (λ taken. taken ≤ length tokens.now) }
{
    let [operator, instance, opening, input, ..] = tokens else {
        return Ok(0);
    };
    let Shape::Opening = opening.shape else {
        return Ok(0);
    };
    match call_at(alloc, body, *operator, *instance, *opening, *input) {
        Some(call) => {
            let mut call = call;
            let (_, list) = tokens.split_at(3);
            let taken = take_list(&mut call, list)?;
            if taken == 0 {
                return Ok(0);
            }
            let started = StartedLine {
                label: None,
                line: operator.line,
            };
            add_step(body, started, Step::Call(call))?;
            Ok(3 + taken)
        }
        None => Ok(0),
    }
}

/// Reads a short line and a call on one line, if each is here, and returns the number of their
/// tokens.
#[inline(always)]
pub fn take_line_and_call<'a>(
    alloc: Global,
    body: &mut Body<'a>,
    tokens: &[Token<'a>],
) -> Result<usize, AllocError>
    requires { IsCounted body.old }
    ensures goes_on { IfOk result
        (λ taken. (units : List ProgramUnit)
        → GoesOn (moves.AtLine (position_view units body.old)) (marks_of tokens.now)
        (moves.AtLine (position_view units body.new)) (marks_of (drop taken tokens.now))) }
    ensures counted { OnOk result (IsCounted body.new) }
    ensures within { IfOk result (λ taken. taken ≤ length tokens.now) }
{
    let before = take_line(alloc, body, tokens)?;
    let (_, following) = tokens.split_at(before);
    let taken = take_call(alloc, body, following)?;
    Ok(before + taken)
}
