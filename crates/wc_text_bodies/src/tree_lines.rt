ghost use Rattle.std.specs.Prelude.{◌≡◌, Some, map, option_map};
ghost use Rattle.wc_laws_grammar.specs.Words.{step_of};
ghost use Rattle.wc_model.specs.Language.Tree as tree;
ghost use Rattle.wc_model.specs.Definitions.{Lines, assignment_view, line_view, lines_view, name_view, term_view, word_view};
ghost use Rattle.wc_text_lines.specs.LineViews.{step_view};
ghost use Rattle.wc_text_lines.specs.Words.{operating_view};

use std::alloc::Global;
use wc_model::{Instr, Line, Operand, Operator, Word};
use wc_text_lines::{OpenCall, OperandOperator, StartedLine, Step};

/// The line of a label alone.
#[inline(always)]
pub(crate) fn label_line<'a>(label: Word<'a>) -> Line<'a>
    ensures { (rest : Lines) → line_view result rest ≡ tree.Alone (word_view label.entry) rest }
{
    Line {
        label: Some(label),
        instr: None,
    }
}

/// The line of an instruction.
#[inline(always)]
fn line_with<'a>(label: Option<Word<'a>>, instr: Instr<'a>) -> Line<'a>
    ensures { result ≡ record { label = label.entry; instr = Some instr.entry } }
{
    Line {
        label,
        instr: Some(instr),
    }
}

/// The line of a call.
fn call_line<'a>(label: Option<Word<'a>>, call: OpenCall<'a>, line: u32) -> Line<'a>
    ensures { (rest : Lines)
        → line_view result rest
        ≡ tree.Plain (option_map word_view label.entry) line
        (tree.Call call.entry.condition (name_view call.entry.instance)
        (map assignment_view call.entry.arguments.items)) rest }
{
    let OpenCall {
        condition,
        instance,
        arguments,
    } = call;
    line_with(
        label,
        Instr::Call {
            condition,
            instance: instance.text,
            arguments,
            line,
        },
    )
}

/// The line of an operator with its operand.
fn operated_line<'a>(
    label: Option<Word<'a>>,
    line: u32,
    operating: OperandOperator,
    operand: Operand<'a>,
) -> Line<'a>
    ensures { (rest : Lines)
        → line_view result rest
        ≡ tree.Plain (option_map word_view label.entry) line
        (step_of (operating_view operating) (term_view operand.entry)) rest }
{
    let instr = match operating {
        OperandOperator::Loads(negated) => Instr::Load {
            negated,
            operand,
            line,
        },
        OperandOperator::Stores(storing) => Instr::Store {
            storing,
            target: operand,
            line,
        },
        OperandOperator::Applies(operator) => Instr::Apply {
            operator,
            operand,
            line,
        },
    };
    line_with(label, instr)
}

/// The line of an instruction.
#[inline(always)]
pub(crate) fn step_line<'a>(started: StartedLine<'a>, step: Step<'a>) -> Line<'a>
    ensures { (rest : Lines)
        → line_view result rest
        ≡ tree.Plain (option_map word_view started.entry.label) started.entry.line
        (step_view step.entry) rest }
{
    let StartedLine { label, line } = started;
    match step {
        Step::Operate(operating, operand) => operated_line(label, line, operating, operand),
        Step::Negate => line_with(label, Instr::Not { line }),
        Step::Jump(condition, target) => line_with(
            label,
            Instr::Jump {
                condition,
                label: target.text,
                line,
            },
        ),
        Step::Call(call) => call_line(label, call, line),
        Step::Return(condition) => line_with(label, Instr::Return { condition, line }),
    }
}

/// The line of a whole parenthesis.
pub(crate) fn nested_line<'a>(
    started: StartedLine<'a>,
    operator: Operator,
    operand: Option<Operand<'a>>,
    inside: Vec<Line<'a>, Global>,
    close: u32,
) -> Line<'a>
    ensures { (rest : Lines)
        → line_view result rest
        ≡ tree.Nested (option_map word_view started.entry.label) started.entry.line operator
        (option_map term_view operand.entry) (lines_view inside.entry.items) close rest }
{
    Line {
        label: started.label,
        instr: Some(Instr::Defer {
            operator,
            operand,
            inside,
            line: started.line,
            close,
        }),
    }
}
