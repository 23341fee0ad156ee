ghost use Rattle.std.specs.Prelude.{IfOk};
ghost use Rattle.wc_text_lines.specs.LineViews.{LeadsTo};

use crate::line_state::{Formal, InLine, InList, LineShape, OpenCall, OperandOf, Step};
use crate::operands::at_operand;
use crate::words::word;
use std::alloc::{AllocError, Global};
use wc_lexer::{Shape, Token};
use wc_model::{Condition, Direction, Word};

/// After the token that follows a call's instance.
pub(crate) fn at_instance<'a>(
    alloc: Global,
    condition: Condition,
    instance: Word<'a>,
    token: Token<'a>,
) -> Option<InLine<'a>>
    ensures { LeadsTo (InLine.Instanced condition instance.entry) token.entry result }
{
    let call = OpenCall {
        condition,
        instance,
        arguments: Vec::new(alloc),
    };
    match token.shape {
        Shape::LineEnd => Some(InLine::Formed(LineShape::Instructs(Step::Call(call)), true)),
        Shape::Opening => Some(InLine::Listing(call, InList::AtFirst)),
        _ => None,
    }
}

/// After the token that follows the list's bracket: an input or output, or the list's end.
fn at_first<'a>(call: OpenCall<'a>, token: Token<'a>) -> Option<InLine<'a>>
    ensures { LeadsTo (InLine.Listing call.entry InList.AtFirst) token.entry result }
{
    match token.shape {
        Shape::LineEnd => Some(InLine::Listing(call, InList::AtFirst)),
        Shape::Identifier => Some(InLine::Listing(call, InList::AtAssign(word(token)))),
        Shape::Closing => Some(InLine::Formed(LineShape::Instructs(Step::Call(call)), false)),
        _ => None,
    }
}

/// After the token that follows a comma: an input or output.
fn at_next<'a>(call: OpenCall<'a>, token: Token<'a>) -> Option<InLine<'a>>
    ensures { LeadsTo (InLine.Listing call.entry InList.AtNext) token.entry result }
{
    match token.shape {
        Shape::LineEnd => Some(InLine::Listing(call, InList::AtNext)),
        Shape::Identifier => Some(InLine::Listing(call, InList::AtAssign(word(token)))),
        _ => None,
    }
}

/// After the token that follows the name of an input or output: its `:=` or `=>`.
fn at_assign<'a>(call: OpenCall<'a>, word: Word<'a>, token: Token<'a>) -> Option<InLine<'a>>
    ensures { LeadsTo (InLine.Listing call.entry (InList.AtAssign word.entry)) token.entry result }
{
    let direction = match token.shape {
        Shape::LineEnd => return Some(InLine::Listing(call, InList::AtAssign(word))),
        Shape::Assign => Direction::Into,
        Shape::Arrow => Direction::OutOf,
        _ => return None,
    };
    Some(InLine::Listing(call, InList::AtValue(Formal { direction, word })))
}

/// After the token that follows `:=` or `=>`: a value, or a target.
fn at_value<'a>(
    call: OpenCall<'a>,
    formal: Formal<'a>,
    token: Token<'a>,
) -> Result<Option<InLine<'a>>, AllocError>
    ensures { IfOk result
        (λ next. LeadsTo (InLine.Listing call.entry (InList.AtValue formal.entry)) token.entry next) }
{
    match token.shape {
        Shape::LineEnd => Ok(Some(InLine::Listing(call, InList::AtValue(formal)))),
        _ => at_operand(OperandOf::OfArgument(call, formal), token),
    }
}

/// After the token that follows a whole argument: a comma, or the list's end.
fn at_end<'a>(call: OpenCall<'a>, token: Token<'a>) -> Option<InLine<'a>>
    ensures { LeadsTo (InLine.Listing call.entry InList.AtEnd) token.entry result }
{
    match token.shape {
        Shape::LineEnd => Some(InLine::Listing(call, InList::AtEnd)),
        Shape::Comma => Some(InLine::Listing(call, InList::AtNext)),
        Shape::Closing => Some(InLine::Formed(LineShape::Instructs(Step::Call(call)), false)),
        _ => None,
    }
}

/// After one more token of a call's list, whose line ends are passed over.
pub(crate) fn at_list<'a>(
    call: OpenCall<'a>,
    item: InList<'a>,
    token: Token<'a>,
) -> Result<Option<InLine<'a>>, AllocError>
    ensures { IfOk result (λ next. LeadsTo (InLine.Listing call.entry item.entry) token.entry next) }
{
    match item {
        InList::AtFirst => Ok(at_first(call, token)),
        InList::AtNext => Ok(at_next(call, token)),
        InList::AtAssign(name) => Ok(at_assign(call, name, token)),
        InList::AtValue(formal) => at_value(call, formal, token),
        InList::AtEnd => Ok(at_end(call, token)),
    }
}
