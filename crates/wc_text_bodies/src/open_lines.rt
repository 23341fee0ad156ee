ghost use Rattle.std.specs.Prelude.{◌≡◌, [], List};
ghost use Rattle.wc_laws_grammar.specs.Moves as moves;
ghost use Rattle.wc_model.specs.Definitions.{ProgramUnit, unit_view};
ghost use Rattle.wc_text_lines.specs.LineViews.{started_view, in_line_view, line_state_view};
ghost use Rattle.wc_text_bodies.specs.Views.{fault_of, position_view, openings_view};

use crate::bodies::{Body, innermost};
use crate::line_faults::refusal;
use wc_model::Fault;
use wc_text_lines::{InLine, LineShape, LineState, OperandOf, StartedLine};

/// In a body at the text's end: the innermost parenthesis is open, or the unit.
pub fn open_in(body: &Body) -> Fault
    ensures { result
        ≡ fault_of
        (moves.open_in (unit_view body.now.unit) (openings_view [] body.now.openings.items)) }
{
    match innermost(&body.openings) {
        Some(opening) => refusal(206, opening.started.line),
        None => refusal(202, body.unit.line),
    }
}

/// On the line of an instruction at the text's end: it may open a parenthesis.
fn open_in_line<'a>(body: &Body<'a>, started: &StartedLine<'a>, state: &InLine<'a>) -> Fault
    ensures { (units : List ProgramUnit)
        → result
        ≡ fault_of
        (moves.open_on (position_view units body.now)
        (in_line_view (started_view started.now) state.now)) }
{
    match state {
        InLine::Formed(line_shape, false) => match line_shape {
            LineShape::Opens(..) => refusal(206, started.line),
            LineShape::Instructs(_) => open_in(body),
        },
        InLine::Named(owner, _, _) => match owner {
            OperandOf::OfOpening(_) => refusal(206, started.line),
            _ => open_in(body),
        },
        _ => open_in(body),
    }
}

/// On a line at the text's end: it may open a parenthesis.
pub fn open_on<'a>(body: &Body<'a>, line: &LineState<'a>) -> Fault
    ensures { (units : List ProgramUnit)
        → result
        ≡ fault_of (moves.open_on (position_view units body.now) (line_state_view line.now)) }
{
    match line {
        LineState::Instructing(started, state) => open_in_line(body, started, state),
        _ => open_in(body),
    }
}
