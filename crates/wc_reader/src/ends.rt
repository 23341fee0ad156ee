ghost use Rattle.std.specs.Prelude.{◌≡◌, ℕ, IfErr, IfSome, List, MatchOption, Some, map};
ghost use Rattle.wc_laws_grammar.specs.Moves as moves;
ghost use Rattle.wc_model.specs.Definitions.{ProgramUnit, unit_view};
ghost use Rattle.wc_text_bodies.specs.Views.{position_view};
ghost use Rattle.wc_reader.specs.TextViews.{line_place_view, reading_view, state_view};
ghost use Rattle.wc_reader.specs.Reported.{ReportsFault, ReportsReading};

use crate::faults::has_program;
use crate::text_state::{LinePlace, Progress, TextState};
use std::alloc::Global;
use std::mem;
use wc_model::{Fault, Source, Unit};
use wc_text_bodies::{Body, open_in, open_on};

/// Whole units at the text's end: one is a program, or none.
fn whole_text<'a>(units: Vec<Unit<'a>, Global>, last_line: u32) -> Result<Source<'a>, Fault>
    ensures reported { ReportsReading
        (moves.at_end (moves.Outside (map unit_view units.entry.items)) last_line) result }
    // It takes no memory, so a refusal is not reported as out of memory.
    ensures refuses { IfErr result (λ fault. fault ≡ Fault.Memory → ⊥) }
{
    if has_program(&units) {
        Ok(Source { units })
    } else {
        Err(Fault::Refused {
            number: 203,
            place: last_line,
        })
    }
}

/// A unit that began at that line is not closed.
fn unit_open(line: u32) -> Option<Fault>
    ensures { result ≡ Some (Fault.Refused 202 line) }
{
    Some(Fault::Refused {
        number: 202,
        place: line,
    })
}

/// What is open in a body at the text's end.
fn open_in_body<'a>(body: &Body<'a>, place: &LinePlace<'a>) -> Fault
    ensures reported { (units : List ProgramUnit) (last : ℕ)
        → ReportsFault (moves.at_end (line_place_view
        (position_view units body.now) place.now) last)
        result }
    // It takes no memory, so a refusal is not reported as out of memory.
    ensures refuses { result ≡ Fault.Memory → ⊥ }
{
    match place {
        LinePlace::AtLine | LinePlace::Closed => open_in(body),
        LinePlace::OnLine(line) => open_on(body, line),
    }
}

/// What is open at the text's end.
fn open_at_end<'a>(state: &TextState<'a>) -> Option<Fault>
    ensures reported { (units : List ProgramUnit) (last : ℕ)
        → MatchOption result
        (moves.at_end (state_view units state.now) last ≡ moves.at_end (moves.Outside units) last)
        (λ fault. ReportsFault (moves.at_end (state_view units state.now) last) fault) }
    // It takes no memory, so a refusal is not reported as out of memory.
    ensures refuses { IfSome result (λ fault. fault ≡ Fault.Memory → ⊥) }
{
    match state {
        TextState::Outside => None,
        TextState::Unnamed(_, line) => unit_open(*line),
        TextState::Declaring(unit, ..) => unit_open(unit.line),
        TextState::InBody(body, place) => Some(open_in_body(body, place)),
    }
}

/// The text whose tokens have all been read, or what is wrong at its end.
pub fn at_text_end<'a>(
    alloc: Global,
    reading: &mut Progress<'a>,
    last_line: u32,
) -> Result<Source<'a>, Fault>
    ensures reported { ReportsReading (moves.at_end (reading_view reading.old) last_line) result }
    // It takes no memory, so a refusal is not reported as out of memory.
    ensures refuses { IfErr result (λ fault. fault ≡ Fault.Memory → ⊥) }
{
    match open_at_end(&reading.state) {
        Some(fault) => Err(fault),
        None => whole_text(mem::replace(&mut reading.units, Vec::new(alloc)), last_line),
    }
}
