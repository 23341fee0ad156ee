ghost use Rattle.std.specs.Prelude.{◌≡◌, ◌∷◌, [], ◌&&◌, List, Some, None, is_some, length, nat_le, option_map, if◌then◌else◌};
ghost use Rattle.wc_laws_grammar.specs.Moves as moves;
ghost use Rattle.wc_laws_grammar.specs.Words as words;
ghost use Rattle.wc_model.specs.Definitions.{end_word, most_depth, ProgramUnit};
ghost use Rattle.wc_model.specs.Text.Positions as positions;
ghost use Rattle.wc_model.specs.Text.ReadingFaults as faults;
ghost use Rattle.wc_text_bodies.specs.Views.{IsCounted, fault_of, position_view, openings_view};
ghost use Rattle.wc_text_lines.specs.LineViews.{started_view, in_line_view, line_state_view};
ghost use Rattle.wc_text_lines.specs.Words.{symbol_view};

use crate::bodies::{Body, Opening, has_content, innermost, is_full};
use wc_lexer::{Shape, Token};
use wc_model::{Fault, MOST_DEPTH, UnitKind};
use wc_text_lines::{
    InLine, LineState, OperandOperator, StartedLine, ends_unit, is_transfer, operation_of,
};

/// The refusal of that number on that line.
pub(crate) fn refusal(number: u16, place: u32) -> Fault
    ensures { result ≡ Fault.Refused number place }
{
    Fault::Refused { number, place }
}

/// The refusal if the test holds.
fn refused_if(test: bool, number: u16, place: u32) -> Option<Fault>
    ensures { result ≡ (if test then Some (Fault.Refused number place) else None) }
{
    if test {
        Some(refusal(number, place))
    } else {
        None
    }
}

/// What is wrong with a `)` at the start of a line.
fn closing_fault(body: &Body, line: u32) -> Option<Fault>
    requires { IsCounted body.now }
    ensures { (units : List ProgramUnit)
        → result
        ≡ option_map fault_of
        (moves.fault_at_closing (position_view units body.now)
        (openings_view [] body.now.openings.items) line) }
{
    match innermost(&body.openings) {
        Some(opening) => {
            if has_content(opening, &body.done) {
                refused_if(is_full(body), 208, line)
            } else {
                Some(refusal(204, line))
            }
        }
        None => Some(refusal(206, line)),
    }
}

/// Whether the token is an operator.
fn is_operator(token: Token) -> bool
    ensures { result ≡ is_some (words.operation_of (symbol_view token.entry)) }
{
    match operation_of(token) {
        Some(_) => true,
        None => false,
    }
}

/// What is wrong with an operator that begins a line: it is one line too many. A label is not one.
fn operator_fault(body: &Body, token: Token, colon: bool) -> Option<Fault>
    requires { IsCounted body.now }
    ensures { (units : List ProgramUnit)
        → result
        ≡ option_map fault_of
        (moves.fault_at_operator (position_view units body.now)
        (symbol_view token.entry) token.entry.line colon) }
{
    if colon {
        None
    } else {
        labelled_fault(body, token)
    }
}

/// Whether a jump, a call or a return begins here.
fn begins_transfer(token: Token) -> bool
    ensures { result ≡ moves.begins_transfer (words.operation_of (symbol_view token.entry)) }
{
    match operation_of(token) {
        Some(operation) => is_transfer(operation),
        None => false,
    }
}

/// Whether a label begins here.
fn begins_label(token: Token, colon: bool) -> bool
    ensures { result ≡ (moves.is_identifier (symbol_view token.entry) && colon) }
{
    match token.shape {
        Shape::Identifier => colon,
        _ => false,
    }
}

/// Whether the token is the word that ends a unit of that kind.
fn is_end_word(token: Token, kind: UnitKind) -> bool
    ensures { result ≡ moves.has_name (symbol_view token.entry) (end_word kind) }
{
    match token.shape {
        Shape::Identifier => ends_unit(token.text, kind),
        _ => false,
    }
}

/// What is wrong with the first token of a line in parentheses, other than a `)`.
fn inside_fault(body: &Body, open_line: u32, token: Token, colon: bool) -> Option<Fault>
    requires { IsCounted body.now }
    ensures { (units : List ProgramUnit) (opening : positions.Opening)
        (outer : List positions.Opening) → opening.line ≡ open_line
        → result
        ≡ option_map fault_of
        (moves.fault_at_line (position_view units body.now) (opening ∷ outer)
        (symbol_view token.entry) token.entry.line colon) }
{
    if begins_transfer(token) {
        Some(refusal(205, token.line))
    } else if begins_label(token, colon) {
        Some(refusal(205, token.line))
    } else if is_end_word(token, body.unit.kind) {
        Some(refusal(206, open_line))
    } else {
        operator_fault(body, token, colon)
    }
}

/// What is wrong with the first token of a line, other than a `)`.
fn line_fault(body: &Body, token: Token, colon: bool) -> Option<Fault>
    requires { IsCounted body.now }
    ensures { (units : List ProgramUnit)
        → result
        ≡ option_map fault_of
        (moves.fault_at_line (position_view units body.now)
        (openings_view [] body.now.openings.items)
        (symbol_view token.entry) token.entry.line colon) }
{
    match innermost(&body.openings) {
        Some(opening) => inside_fault(body, opening.started.line, token, colon),
        None => operator_fault(body, token, colon),
    }
}

/// What is wrong with the first token of a line.
pub fn start_fault(body: &Body, token: Token, colon: bool) -> Option<Fault>
    requires { IsCounted body.now }
    ensures { (units : List ProgramUnit)
        → result
        ≡ option_map fault_of
        (moves.fault_at (moves.AtLine (position_view units body.now))
        (symbol_view token.entry) token.entry.line colon) }
{
    match token.shape {
        Shape::Closing => closing_fault(body, token.line),
        _ => line_fault(body, token, colon),
    }
}

/// What is wrong with an operator after a label: it is one line too many.
fn labelled_fault(body: &Body, token: Token) -> Option<Fault>
    requires { IsCounted body.now }
    ensures { (units : List ProgramUnit)
        → result
        ≡ option_map fault_of
        (moves.fault_if
        (is_some (words.operation_of (symbol_view token.entry)) && moves.is_full
        (position_view units body.now)) faults.TooMany token.entry.line) }
{
    if is_full(body) {
        refused_if(is_operator(token), 208, token.line)
    } else {
        None
    }
}

/// What is wrong with an operator's bracket: it is one too deep.
fn depth_fault<'a>(openings: &[Opening<'a>], line: u32) -> Option<Fault>
    ensures { result
        ≡ option_map fault_of
        (moves.fault_if
        (nat_le most_depth (length (openings_view [] openings.now))) faults.TooDeep line) }
{
    refused_if(openings.len() >= MOST_DEPTH, 207, line)
}

/// What is wrong with a token of an instruction that has started: a bracket after its operator.
fn in_line_fault<'a>(
    body: &Body<'a>,
    started: &StartedLine<'a>,
    state: &InLine<'a>,
    token: Token<'a>,
) -> Option<Fault>
    ensures { (units : List ProgramUnit)
        → result
        ≡ option_map fault_of
        (moves.fault_on_line (position_view units body.now)
        (in_line_view (started_view started.now) state.now)
        (symbol_view token.entry) token.entry.line) }
{
    match state {
        InLine::Operated(operating) => match operating {
            OperandOperator::Applies(_) => match token.shape {
                Shape::Opening => depth_fault(&body.openings, started.line),
                _ => None,
            },
            _ => None,
        },
        _ => None,
    }
}

/// What is wrong with a token of a line that has started: an operator after a label, or a
/// bracket after an operator.
pub fn state_fault<'a>(body: &Body<'a>, line: &LineState<'a>, token: Token<'a>) -> Option<Fault>
    requires { IsCounted body.now }
    ensures { (units : List ProgramUnit)
        → result
        ≡ option_map fault_of
        (moves.fault_on_line (position_view units body.now) (line_state_view line.now)
        (symbol_view token.entry) token.entry.line) }
{
    match line {
        LineState::Labelled(_) => labelled_fault(body, token),
        LineState::Instructing(started, state) => in_line_fault(body, started, state, token),
        _ => None,
    }
}
