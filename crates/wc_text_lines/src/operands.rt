ghost use Rattle.std.specs.Prelude.{◌≡◌, false, IfOk, Some, option_map};
ghost use Rattle.wc_laws_grammar.specs.LineMoves as lines;
ghost use Rattle.wc_model.specs.Text.Marks as marks;
ghost use Rattle.wc_model.specs.Language.Views.{name_view, term_view};
ghost use Rattle.wc_text_lines.specs.LineViews.{LeadsTo, formal_view, in_line_view, listed_view, owner_view};
ghost use Rattle.wc_text_lines.specs.Words.{symbol_view};

use crate::line_state::{Formal, InLine, InList, LineShape, OpenCall, OperandOf, Step};
use crate::operators::OperandOperator;
use crate::words::{truth, word};
use std::alloc::AllocError;
use wc_lexer::{Shape, Token};
use wc_model::{Argument, Operand, Operator, Value, Word};

/// The call with one more argument.
fn with_argument<'a>(
    call: OpenCall<'a>,
    formal: Formal<'a>,
    value: Operand<'a>,
) -> Result<OpenCall<'a>, AllocError>
    ensures { IfOk result
        (λ more.
        listed_view more
        ≡ lines.with_argument (listed_view call.entry) (formal_view formal.entry)
        (term_view value.entry)) }
{
    let mut call = call;
    call.arguments.push(Argument {
        direction: formal.direction,
        name: formal.word.text,
        value,
    })?;
    Ok(call)
}

/// After a whole operand.
fn after_operand<'a>(
    owner: OperandOf<'a>,
    operand: Operand<'a>,
) -> Result<Option<InLine<'a>>, AllocError>
    ensures { IfOk result
        (λ next. (started : lines.StartedLine)
        → option_map (in_line_view started) next
        ≡ Some (lines.after_operand started (owner_view owner.entry) (term_view operand.entry))) }
{
    match owner {
        OperandOf::OfStep(operating) => {
            let step = Step::Operate(operating, operand);
            Ok(Some(InLine::Formed(LineShape::Instructs(step), false)))
        }
        OperandOf::OfOpening(operator) => {
            let line_shape = LineShape::Opens(operator, Some(operand));
            Ok(Some(InLine::Formed(line_shape, false)))
        }
        OperandOf::OfArgument(call, formal) => {
            let call = with_argument(call, formal, operand)?;
            Ok(Some(InLine::Listing(call, InList::AtEnd)))
        }
    }
}

/// After the first token of an operand; none if none begins so.
pub(crate) fn at_operand<'a>(
    owner: OperandOf<'a>,
    token: Token<'a>,
) -> Result<Option<InLine<'a>>, AllocError>
    ensures { IfOk result
        (λ next. (started : lines.StartedLine)
        → option_map (in_line_view started) next
        ≡ lines.at_operand started (owner_view owner.entry)
        (symbol_view token.entry) token.entry.line) }
{
    match token.shape {
        Shape::Identifier => match truth(token.text) {
            Some(value) => after_operand(owner, Operand::Literal(Value::Bool(value))),
            None => Ok(Some(InLine::Named(owner, word(token), false))),
        },
        Shape::Whole(number) => after_operand(owner, Operand::Literal(Value::Dint(number))),
        Shape::Duration(time) => after_operand(owner, Operand::Literal(Value::Time(time))),
        Shape::Truth(value) => after_operand(owner, Operand::Literal(Value::Bool(value))),
        Shape::Address => after_operand(owner, Operand::Address(word(token))),
        _ => Ok(None),
    }
}

/// After the token that follows an argument's name that is the whole operand.
fn after_value<'a>(
    call: OpenCall<'a>,
    formal: Formal<'a>,
    name: Word<'a>,
    token: Token<'a>,
) -> Result<Option<InLine<'a>>, AllocError>
    ensures { IfOk result
        (λ next. (started : lines.StartedLine)
        → option_map (in_line_view started) next
        ≡ lines.after_name started
        (lines.OfArgument (listed_view call.entry) (formal_view formal.entry))
        (name_view name.entry) (symbol_view token.entry)) }
{
    match token.shape {
        Shape::LineEnd => Ok(Some(InLine::Named(OperandOf::OfArgument(call, formal), name, false))),
        Shape::Comma => {
            let call = with_argument(call, formal, Operand::Name(name.text))?;
            Ok(Some(InLine::Listing(call, InList::AtNext)))
        }
        Shape::Closing => {
            let call = with_argument(call, formal, Operand::Name(name.text))?;
            Ok(Some(InLine::Formed(LineShape::Instructs(Step::Call(call)), false)))
        }
        _ => Ok(None),
    }
}

/// After the token that follows a name that is the whole operand.
fn after_whole_name<'a>(
    owner: OperandOf<'a>,
    name: Word<'a>,
    token: Token<'a>,
) -> Result<Option<InLine<'a>>, AllocError>
    ensures { IfOk result
        (λ next. (started : lines.StartedLine)
        → option_map (in_line_view started) next
        ≡ lines.after_name started (owner_view owner.entry) (name_view name.entry)
        (symbol_view token.entry)) }
{
    match owner {
        OperandOf::OfStep(operating) => match token.shape {
            Shape::LineEnd => {
                let step = Step::Operate(operating, Operand::Name(name.text));
                Ok(Some(InLine::Formed(LineShape::Instructs(step), true)))
            }
            _ => Ok(None),
        },
        OperandOf::OfOpening(operator) => match token.shape {
            Shape::LineEnd => {
                let line_shape = LineShape::Opens(operator, Some(Operand::Name(name.text)));
                Ok(Some(InLine::Formed(line_shape, true)))
            }
            _ => Ok(None),
        },
        OperandOf::OfArgument(call, formal) => after_value(call, formal, name, token),
    }
}

/// After the token that follows a name.
fn at_named<'a>(
    owner: OperandOf<'a>,
    name: Word<'a>,
    token: Token<'a>,
) -> Result<Option<InLine<'a>>, AllocError>
    ensures { IfOk result (λ next. LeadsTo (InLine.Named owner.entry name.entry false) token.entry next) }
{
    match token.shape {
        Shape::Point => Ok(Some(InLine::Named(owner, name, true))),
        _ => after_whole_name(owner, name, token),
    }
}

/// After the line end after a field's point: only in a call's list line ends are passed over.
fn after_point<'a>(owner: OperandOf<'a>, instance: Word<'a>) -> Option<InLine<'a>>
    ensures { (started : lines.StartedLine)
        → option_map (in_line_view started) result
        ≡ lines.at_field started (owner_view owner.entry)
        (name_view instance.entry) marks.LineEnd }
{
    match owner {
        OperandOf::OfArgument(call, formal) => Some(InLine::Named(
            OperandOf::OfArgument(call, formal),
            instance,
            true,
        )),
        _ => None,
    }
}

/// After the token that follows a field's point.
fn at_field<'a>(
    owner: OperandOf<'a>,
    instance: Word<'a>,
    token: Token<'a>,
) -> Result<Option<InLine<'a>>, AllocError>
    ensures { IfOk result
        (λ next. (started : lines.StartedLine)
        → option_map (in_line_view started) next
        ≡ lines.at_field started (owner_view owner.entry)
        (name_view instance.entry) (symbol_view token.entry)) }
{
    match token.shape {
        Shape::Identifier => {
            let operand = Operand::Field {
                instance: instance.text,
                field: token.text,
            };
            after_operand(owner, operand)
        }
        Shape::LineEnd => Ok(after_point(owner, instance)),
        _ => Ok(None),
    }
}

/// After the token that follows a name, or after the point after it.
pub(crate) fn after_name<'a>(
    owner: OperandOf<'a>,
    name: Word<'a>,
    pointed: bool,
    token: Token<'a>,
) -> Result<Option<InLine<'a>>, AllocError>
    ensures { IfOk result
        (λ next. LeadsTo (InLine.Named owner.entry name.entry pointed) token.entry next) }
{
    if pointed {
        at_field(owner, name, token)
    } else {
        at_named(owner, name, token)
    }
}
