ghost use Rattle.std.specs.Prelude.{◌≡◌, ℕ, Bool, false, IfOk, Option, option_map};
ghost use Rattle.wc_laws_grammar.specs.LineMoves as lines;
ghost use Rattle.wc_laws_grammar.specs.Words as words;
ghost use Rattle.wc_model.specs.Definitions.{Setting, InBody, InParentheses, name_of, word_view};
ghost use Rattle.wc_model.specs.Language.Tree as tree;
ghost use Rattle.wc_text_lines.specs.LineViews.{LeadsTo, started_view, in_line_view, line_state_view};
ghost use Rattle.wc_text_lines.specs.Words.{operating_view, operation_view, symbol_view};

use crate::calls::{at_instance, at_list};
use crate::line_state::{InLine, LineShape, LineState, OperandOf, StartedLine, Step};
use crate::operands::{after_name, at_operand};
use crate::operators::{OperandOperator, Operation, is_transfer, operation_named, operation_of};
use crate::words::word;
use std::alloc::{AllocError, Global};
use wc_lexer::{Shape, Token};
use wc_model::{Condition, Operand, Operator, Word};

/// What begins with an operator.
#[inline(always)]
fn started_with<'a>(operation: Operation) -> InLine<'a>
    ensures { (label : Option tree.Word) (line : ℕ)
        → in_line_view (record { label = label; line = line }) result
        ≡ lines.after_operator label line (operation_view operation) }
{
    match operation {
        Operation::Operates(operating) => InLine::Operated(operating),
        Operation::Negates => InLine::Formed(LineShape::Instructs(Step::Negate), false),
        Operation::Jumps(condition) => InLine::Jumped(condition),
        Operation::Calls(condition) => InLine::Called(condition),
        Operation::Returns(condition) => InLine::Formed(
            LineShape::Instructs(Step::Return(condition)),
            false,
        ),
    }
}

/// After an operator.
#[inline(always)]
fn after_operator<'a>(label: Option<Word<'a>>, line: u32, operation: Operation) -> LineState<'a>
    ensures { line_state_view result
        ≡ lines.after_operator (option_map word_view label.entry) line (operation_view operation) }
{
    LineState::Instructing(StartedLine { label, line }, started_with(operation))
}

/// After a token that has to be an operator.
#[inline(always)]
fn at_operator<'a>(label: Option<Word<'a>>, token: Token<'a>) -> Option<LineState<'a>>
    ensures { option_map line_state_view result
        ≡ lines.at_operator (option_map word_view label.entry) token.entry.line
        (words.operation_of (symbol_view token.entry)) }
{
    Some(after_operator(label, token.line, operation_of(token)?))
}

/// After a line's first identifier that no colon follows. One that is not an operator may still
/// be a label: what is wrong is the token after it.
fn operator_or_label<'a>(token: Token<'a>) -> LineState<'a>
    ensures { line_state_view result
        ≡ lines.operator_or_label
        (record { line = token.entry.line; name = name_of token.entry.text.now })
        (words.found words.operations (name_of token.entry.text.now)) }
{
    match operation_named(token.text) {
        Some(operation) => after_operator(None, token.line, operation),
        None => LineState::Worded(word(token)),
    }
}

/// After the first token of a line of a body; `colon` says whether a colon follows it.
#[inline(always)]
pub fn at_start<'a>(token: Token<'a>, colon: bool) -> Option<LineState<'a>>
    ensures { option_map line_state_view result
        ≡ lines.line_move InBody lines.Start (symbol_view token.entry) token.entry.line colon }
{
    match token.shape {
        Shape::Identifier if colon => Some(LineState::Worded(word(token))),
        Shape::Identifier => Some(operator_or_label(token)),
        _ => at_operator(None, token),
    }
}

/// After the first token of a line in parentheses, where no label, jump, call or return may be.
#[inline(always)]
pub fn at_start_inside<'a>(token: Token<'a>) -> Option<LineState<'a>>
    ensures { (colon : Bool)
        → option_map line_state_view result
        ≡ lines.line_move InParentheses lines.Start
        (symbol_view token.entry) token.entry.line colon }
{
    let operation = operation_of(token)?;
    if is_transfer(operation) {
        None
    } else {
        Some(after_operator(None, token.line, operation))
    }
}

/// After the token that follows a label's colon.
fn at_labelled<'a>(label: Word<'a>, token: Token<'a>) -> Option<LineState<'a>>
    ensures { option_map line_state_view result
        ≡ lines.at_labelled (word_view label.entry) (symbol_view token.entry) token.entry.line }
{
    match token.shape {
        Shape::LineEnd => Some(LineState::LabelAlone(label)),
        _ => at_operator(Some(label), token),
    }
}

/// After the token that follows a deferrable operator, which may open a parenthesis.
#[inline(always)]
fn at_applied<'a>(operator: Operator, token: Token<'a>) -> Result<Option<InLine<'a>>, AllocError>
    ensures { IfOk result
        (λ next. (started : lines.StartedLine)
        → option_map (in_line_view started) next
        ≡ lines.at_operated started (words.Applies operator)
        (symbol_view token.entry) token.entry.line) }
{
    match token.shape {
        Shape::Opening => Ok(Some(InLine::Formed(LineShape::Opens(operator, None), false))),
        _ => at_operand(OperandOf::OfStep(OperandOperator::Applies(operator)), token),
    }
}

/// After the token that follows an operator that takes an operand.
#[inline(always)]
fn at_operated<'a>(
    operating: OperandOperator,
    token: Token<'a>,
) -> Result<Option<InLine<'a>>, AllocError>
    ensures { IfOk result
        (λ next. (started : lines.StartedLine)
        → option_map (in_line_view started) next
        ≡ lines.at_operated started (operating_view operating)
        (symbol_view token.entry) token.entry.line) }
{
    match operating {
        OperandOperator::Applies(operator) => at_applied(operator, token),
        OperandOperator::Loads(_) | OperandOperator::Stores(_) => at_operand(
            OperandOf::OfStep(operating),
            token,
        ),
    }
}

/// After the token that follows an operator's bracket.
fn at_bracketed<'a>(operator: Operator, token: Token<'a>) -> Result<Option<InLine<'a>>, AllocError>
    ensures { IfOk result
        (λ next. (started : lines.StartedLine)
        → option_map (in_line_view started) next
        ≡ lines.at_bracketed started operator (symbol_view token.entry) token.entry.line) }
{
    match token.shape {
        Shape::LineEnd => Ok(Some(InLine::Formed(LineShape::Opens(operator, None), true))),
        _ => at_operand(OperandOf::OfOpening(operator), token),
    }
}

/// After the token that follows a jump's operator: its label.
fn at_target<'a>(condition: Condition, token: Token<'a>) -> Option<InLine<'a>>
    ensures { LeadsTo (InLine.Jumped condition) token.entry result }
{
    match token.shape {
        Shape::Identifier => {
            let step = Step::Jump(condition, word(token));
            Some(InLine::Formed(LineShape::Instructs(step), false))
        }
        _ => None,
    }
}

/// After the token that follows a call's operator: its instance.
fn at_called<'a>(condition: Condition, token: Token<'a>) -> Option<InLine<'a>>
    ensures { LeadsTo (InLine.Called condition) token.entry result }
{
    match token.shape {
        Shape::Identifier => Some(InLine::Instanced(condition, word(token))),
        _ => None,
    }
}

/// After the token that follows an operator's bracket, or after the operand after it.
fn at_opening<'a>(
    operator: Operator,
    operand: Option<Operand<'a>>,
    token: Token<'a>,
) -> Result<Option<InLine<'a>>, AllocError>
    ensures { IfOk result
        (λ next.
        LeadsTo (InLine.Formed (LineShape.Opens operator operand.entry) false) token.entry next) }
{
    match operand {
        Some(operand) => match token.shape {
            Shape::LineEnd => {
                let line_shape = LineShape::Opens(operator, Some(operand));
                Ok(Some(InLine::Formed(line_shape, true)))
            }
            _ => Ok(None),
        },
        None => at_bracketed(operator, token),
    }
}

/// After the token that follows what may be a whole line.
#[inline(always)]
fn at_whole<'a>(
    line_shape: LineShape<'a>,
    token: Token<'a>,
) -> Result<Option<InLine<'a>>, AllocError>
    ensures { IfOk result (λ next. LeadsTo (InLine.Formed line_shape.entry false) token.entry next) }
{
    match line_shape {
        LineShape::Instructs(step) => match token.shape {
            Shape::LineEnd => Ok(Some(InLine::Formed(LineShape::Instructs(step), true))),
            _ => Ok(None),
        },
        LineShape::Opens(operator, operand) => at_opening(operator, operand, token),
    }
}

/// After one more token of an instruction; none if none goes on so.
#[inline(always)]
fn in_line_move<'a>(
    alloc: Global,
    state: InLine<'a>,
    token: Token<'a>,
) -> Result<Option<InLine<'a>>, AllocError>
    ensures { IfOk result (λ next. LeadsTo state.entry token.entry next) }
{
    match state {
        InLine::Operated(operating) => at_operated(operating, token),
        InLine::Jumped(condition) => Ok(at_target(condition, token)),
        InLine::Called(condition) => Ok(at_called(condition, token)),
        InLine::Instanced(condition, instance) => Ok(at_instance(
            alloc, condition, instance, token,
        )),
        InLine::Listing(call, item) => at_list(call, item, token),
        InLine::Named(owner, name, pointed) => after_name(owner, name, pointed, token),
        InLine::Formed(line_shape, ended) => {
            if ended {
                Ok(None)
            } else {
                at_whole(line_shape, token)
            }
        }
    }
}

/// On the line of an instruction, if it goes on so.
#[inline(always)]
fn instructing<'a>(started: StartedLine<'a>, state: Option<InLine<'a>>) -> Option<LineState<'a>>
    ensures { option_map line_state_view result
        ≡ option_map (in_line_view (started_view started.entry)) state.entry }
{
    Some(LineState::Instructing(started, state?))
}

/// After one more token of a line that has started; none if no line goes on so.
#[inline(always)]
pub fn line_move<'a>(
    alloc: Global,
    state: LineState<'a>,
    token: Token<'a>,
) -> Result<Option<LineState<'a>>, AllocError>
    ensures { IfOk result
        (λ next. (setting : Setting) (colon : Bool)
        → option_map line_state_view next
        ≡ lines.line_move setting (line_state_view state.entry)
        (symbol_view token.entry) token.entry.line colon) }
{
    match state {
        LineState::Worded(label) => match token.shape {
            Shape::Colon => Ok(Some(LineState::Labelled(label))),
            _ => Ok(None),
        },
        LineState::Labelled(label) => Ok(at_labelled(label, token)),
        LineState::LabelAlone(_) => Ok(None),
        LineState::Instructing(started, state) => {
            match in_line_move(alloc, state, token) {
                Ok(next) => Ok(instructing(started, next)),
                Err(error) => Err(error),
            }
        }
    }
}
