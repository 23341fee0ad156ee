ghost use Rattle.std.specs.Prelude.{◌≡◌, ℕ, [], ◌∷◌, ◌++◌, IfOk, OnOk, map, option_map};
ghost use Rattle.wc_model.specs.Definitions.{name_of, Lines, assignment_view, line_view, lines_view, term_view, word_view};
ghost use Rattle.wc_diag_warnings.specs.Events.{Begins, argument_events, at, call_events, events_of, label_events, line_events, opening_events, action_of_store};
ghost use Rattle.wc_diag_warnings.specs.Seen.{action_events, action_view, events_view, instr_view, Adds};

use std::alloc::{AllocError, Global};
use wc_model::{Argument, Condition, Direction, Instr, Line, Operand, StoreKind, Word};

/// What an instruction does: with what it names, or with the way on.
#[derive(Clone, Copy)]
pub(crate) enum Action<'a> {
    /// An instruction begins.
    Begin,
    Label(&'a [u8]),
    /// LD, an operator or an input of a call reads it.
    Read(Operand<'a>),
    /// ST, STN or an output of a call stores it.
    Store(Operand<'a>),
    /// S or R writes it, if the current result is TRUE.
    Set(Operand<'a>),
    Call(&'a [u8]),
    /// The call's list gives the instance this input.
    Give {
        instance: &'a [u8],
        input: &'a [u8],
    },
    /// JMP, JMPC, JMPCN.
    Jump {
        condition: Condition,
        label: &'a [u8],
    },
    /// RET, RETC, RETCN.
    Return(Condition),
}

/// A action and its line of the text.
#[derive(Clone, Copy)]
pub(crate) struct Event<'a> {
    /// Counted from 1.
    pub(crate) line: u32,
    pub(crate) action: Action<'a>,
}

/// Adds an event.
fn put<'a>(events: &mut Vec<Event<'a>>, line: u32, action: Action<'a>) -> Result<(), AllocError>
    ensures added { OnOk result
        (Adds events.old.items events.new.items (at line (action_view action.entry) ∷ [])) }
{
    Ok(events.push(Event { line, action })?)
}

/// What a store does.
fn action_of_store<'a>(storing: StoreKind, target: Operand<'a>) -> Action<'a>
    ensures { action_view result ≡ action_of_store storing (term_view target.entry) }
{
    match storing {
        StoreKind::Result | StoreKind::Negation => Action::Store(target),
        StoreKind::Set | StoreKind::Reset => Action::Set(target),
    }
}

/// Adds the events of an item of a call's list.
fn put_argument<'a>(
    events: &mut Vec<Event<'a>>,
    line: u32,
    instance: &'a [u8],
    argument: &Argument<'a>,
) -> Result<(), AllocError>
    ensures added { OnOk result (Adds events.old.items events.new.items
        (argument_events line (name_of instance.now) (assignment_view argument.now))) }
{
    match argument.direction {
        Direction::Into => {
            put(events, line, Action::Read(argument.value))?;
            let input = argument.name;
            put(events, line, Action::Give { instance, input })
        }
        Direction::OutOf => put(events, line, Action::Store(argument.value)),
    }
}

/// Adds the beginning of an instruction, and its one action if it has one.
fn put_step<'a>(
    events: &mut Vec<Event<'a>>,
    line: u32,
    action: Option<Action<'a>>,
) -> Result<(), AllocError>
    ensures added { OnOk result
        (Adds events.old.items events.new.items
        (at line Begins ∷ action_events line action.entry)) }
{
    put(events, line, Action::Begin)?;
    match action {
        Some(action) => put(events, line, action),
        None => Ok(()),
    }
}

/// Adds the label of a line, if it has one.
fn put_label<'a>(events: &mut Vec<Event<'a>>, label: Option<Word<'a>>) -> Result<(), AllocError>
    ensures added { OnOk result
        (Adds events.old.items events.new.items (label_events (option_map word_view label.entry))) }
{
    match label {
        Some(word) => put(events, word.line, Action::Label(word.text)),
        None => Ok(()),
    }
}

/// Adds the events of a call.
fn put_call<'a>(
    events: &mut Vec<Event<'a>>,
    line: u32,
    instance: &'a [u8],
    arguments: &[Argument<'a>],
) -> Result<(), AllocError>
    ensures added { OnOk result (Adds events.old.items events.new.items
        (at line Begins ∷ call_events line (name_of instance.now)
        (map assignment_view arguments.now))) }
{
    put_step(events, line, Some(Action::Call(instance)))?;
    for argument in arguments {
        put_argument(events, line, instance, argument)?;
    }
    Ok(())
}

/// What the operand of an opening line is: read.
fn first_read<'a>(operand: &Option<Operand<'a>>) -> Option<Action<'a>>
    ensures { (line : ℕ) → action_events line result
        ≡ opening_events line (option_map term_view operand.now) }
{
    match operand {
        Some(operand) => Some(Action::Read(*operand)),
        None => None,
    }
}

/// Adds the events of a line, and of the lines in its parenthesis.
#[cycle(putting)]
fn put_line<'a>(events: &mut Vec<Event<'a>>, line: &Line<'a>) -> Result<(), AllocError>
    ensures added { OnOk result ((rest : Lines)
        → events_view events.new.items ++ events_of rest
        ≡ events_view events.old.items ++ events_of (line_view line.now rest)) }
{
    put_label(events, line.label)?;
    match &line.instr {
        Some(instr) => put_instr(events, instr),
        None => Ok(()),
    }
}

/// Adds the events of an instruction, and of the lines in its parenthesis.
#[cycle(putting)]
fn put_instr<'a>(events: &mut Vec<Event<'a>>, instr: &Instr<'a>) -> Result<(), AllocError>
    ensures added { OnOk result
        (Adds events.old.items events.new.items (line_events (instr_view instr.now))) }
{
    match instr {
        Instr::Store {
            storing,
            target,
            line,
        } => put_step(events, *line, Some(action_of_store(*storing, *target))),
        Instr::Load { operand, line, .. } | Instr::Apply { operand, line, .. } => {
            put_step(events, *line, Some(Action::Read(*operand)))
        }
        Instr::Defer {
            operand,
            inside,
            line,
            ..
        } => {
            put_step(events, *line, first_read(operand))?;
            put_lines(events, inside)
        }
        Instr::Not { line } => put_step(events, *line, None),
        Instr::Jump {
            condition,
            label,
            line,
        } => {
            let condition = *condition;
            put_step(events, *line, Some(Action::Jump { condition, label }))
        }
        Instr::Call {
            instance,
            arguments,
            line,
            ..
        } => put_call(events, *line, instance, arguments),
        Instr::Return { condition, line } => {
            put_step(events, *line, Some(Action::Return(*condition)))
        }
    }
}

/// Adds the events of lines, in text order.
#[cycle(putting)]
fn put_lines<'a>(events: &mut Vec<Event<'a>>, lines: &[Line<'a>]) -> Result<(), AllocError>
    ensures added { OnOk result
        (Adds events.old.items events.new.items (events_of (lines_view lines.now))) }
{
    for line in lines {
        put_line(events, line)?;
    }
    Ok(())
}

/// The events of a body, in text order.
pub(crate) fn events_of<'a>(alloc: Global, lines: &[Line<'a>]) -> Result<Vec<Event<'a>>, AllocError>
    ensures found { IfOk result (λ events. events_view events.items
        ≡ events_of (lines_view lines.now)) }
{
    let mut events = Vec::new(alloc);
    put_lines(&mut events, lines)?;
    Ok(events)
}
