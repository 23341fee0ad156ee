ghost use Rattle.std.specs.Prelude.{◌≡◌, Bool, List, Option, Some, None, length, map, nat_le, option_map};
ghost use Rattle.std.specs.List.{list_any};
ghost use Rattle.wc_laws_grammar.specs.Moves as moves;
ghost use Rattle.wc_model.specs.Definitions.{most_units, ProgramUnit, unit_view};
ghost use Rattle.wc_model.specs.Text.ReadingFaults as faults;
ghost use Rattle.wc_reader.specs.Reported.{is_program};
ghost use Rattle.wc_text_bodies.specs.Views.{IsCounted, fault_of, position_view};
ghost use Rattle.wc_reader.specs.TextViews.{IsStateCounted, line_place_view, reading_view};
ghost use Rattle.wc_text_lines.specs.Words.{symbol_view};

use crate::text_state::{LinePlace, Progress, TextState};
use wc_lexer::{Shape, Token};
use wc_model::{Fault, MOST_UNITS, Unit, UnitKind};
use wc_text_bodies::{Body, start_fault, state_fault};
use wc_text_lines::unit_kind;

/// Whether the unit is a program.
fn is_program(unit: &Unit) -> bool
    ensures { result ≡ is_program unit.now }
{
    matches!(unit.kind, UnitKind::Program)
}

/// Whether there is a program among the units.
fn any_program(units: &[Unit]) -> bool
    ensures { result ≡ list_any is_program units.now }
{
    units.iter().any(|unit| is_program(unit))
}

/// Whether there is a program among the units.
pub fn has_program(units: &[Unit]) -> bool
    ensures { result ≡ moves.has_program (map unit_view units.now) }
{
    any_program(units)
}

/// What is wrong with a unit's first word: a program precedes it, or it is one too many.
fn word_fault(units: &[Unit], line: u32) -> Option<Fault>
    ensures { result
        ≡ option_map fault_of
        (moves.first_fault
        (moves.fault_if (moves.has_program (map unit_view units.now)) faults.NotOneProgramLast line)
        (moves.fault_if (nat_le most_units (length (map unit_view units.now))) faults.TooMany
        line)) }
{
    if has_program(units) {
        Some(Fault::Refused {
            number: 203,
            place: line,
        })
    } else if units.len() >= MOST_UNITS {
        Some(Fault::Refused {
            number: 208,
            place: line,
        })
    } else {
        None
    }
}

/// What is wrong with a token between units.
fn outside_fault(units: &[Unit], token: Token) -> Option<Fault>
    ensures { (colon : Bool)
        → result
        ≡ option_map fault_of
        (moves.fault_at (moves.Outside (map unit_view units.now))
        (symbol_view token.entry) token.entry.line colon) }
{
    match token.shape {
        Shape::Identifier => {
            unit_kind(token.text)?;
            word_fault(units, token.line)
        }
        _ => None,
    }
}

/// What is wrong with a token of a body.
fn body_fault<'a>(
    body: &Body<'a>,
    place: &LinePlace<'a>,
    token: Token<'a>,
    colon: bool,
) -> Option<Fault>
    requires { IsCounted body.now }
    ensures { (units : List ProgramUnit)
        → result
        ≡ option_map fault_of
        (moves.fault_at (line_place_view (position_view units body.now) place.now)
        (symbol_view token.entry) token.entry.line colon) }
{
    match place {
        LinePlace::AtLine => start_fault(body, token, colon),
        LinePlace::OnLine(line) => state_fault(body, line, token),
        LinePlace::Closed => None,
    }
}

/// What is wrong with a token, other than that it is unexpected. `colon` says whether a colon
/// follows it.
pub(crate) fn fault_at<'a>(reading: &Progress<'a>, token: Token<'a>, colon: bool) -> Option<Fault>
    requires { IsStateCounted reading.now.state }
    ensures { result
        ≡ option_map fault_of
        (moves.fault_at (reading_view reading.now) (symbol_view token.entry) token.entry.line
        colon) }
{
    match &reading.state {
        TextState::Outside => outside_fault(&reading.units, token),
        TextState::InBody(body, place) => body_fault(body, place, token, colon),
        _ => None,
    }
}
