ghost use Rattle.std.specs.Prelude.{◌≡◌, ◌<◌, nat_eq, not, ◌&&◌, if◌then◌else◌, List, OnOk};
ghost use Rattle.std.specs.List.{list_any};
ghost use Rattle.wc_model.specs.Language.Names.{name_of};
ghost use Rattle.wc_diag_warnings.specs.Events.{BodyEvent};
ghost use Rattle.wc_diag_warnings.specs.Paths.{AreFrom};
ghost use Rattle.wc_diag_warnings.specs.Seen.{event_view, events_view, Warns};
ghost use Rattle.wc_diag_warnings.specs.Warnings.{address_of, body_warnings, action_begins, event_number, is_stored_again, outputs_in};

use crate::addresses::{FIRST_OUTPUT, is_asked, reads_weight, stored_variable};
use crate::declared::warn;
use crate::edges::{PathSources, at_start, follow, is_stored, paths_to};
use crate::events::{Action, Event};
use crate::warning::Warning;
use std::alloc::{AllocError, Global};
use wc_model::{Operand, UnitKind};

/// Whether an instruction begins.
fn begins(event: &Event<'_>) -> bool
    ensures { result ≡ action_begins (event_view event.now).action }
{
    matches!(event.action, Action::Begin)
}

/// The address that the event reads or stores; empty if it does neither.
fn address_of<'a>(event: &Event<'a>) -> &'a [u8]
    ensures { name_of result.now ≡ address_of (event_view event.now).action }
{
    match event.action {
        Action::Read(Operand::Address(word)) | Action::Store(Operand::Address(word)) => word.text,
        _ => b"",
    }
}

/// What is known of an event and of those before it.
#[derive(Clone, Copy)]
struct Known {
    begins: bool,
    /// The instruction before it is reached, or there is none.
    above: bool,
    reached: bool,
    /// It stores an output that is stored on a path to it.
    again: bool,
    weighs: bool,
    /// A weight is read before, or `%IX1.5` anywhere.
    asked: bool,
}

/// The warning of an event: it begins a stretch that no run reaches, stores an output again, or reads a weight unasked.
fn number_of(event: Known) -> Option<u8>
    ensures { result ≡ event_number (event.begins && event.above && not event.reached) event.again
        (event.weighs && not event.asked) }
{
    if event.begins && event.above && !event.reached {
        Some(7)
    } else if event.again {
        Some(8)
    } else if event.weighs && !event.asked {
        Some(9)
    } else {
        None
    }
}

/// Whether the last instruction is reached, after an event.
fn is_above(event: Known) -> bool
    ensures { result ≡ (if event.begins then event.reached else event.above) }
{
    if event.begins {
        event.reached
    } else {
        event.above
    }
}

/// Whether the directly represented variable of that number is an output of the unit: the program alone has outputs.
#[tactic(auto, using(crate::proofs::Again::output_is))]
fn is_output(kind: UnitKind, number: u8) -> bool
    requires { number < 45 }
    ensures { result ≡ list_any (nat_eq number) (outputs_in kind) }
{
    match kind {
        UnitKind::FunctionBlock => false,
        UnitKind::Program => FIRST_OUTPUT <= number,
    }
}

/// Whether the event stores an output that is stored on a path to it.
fn is_again(kind: UnitKind, event: &Event<'_>, paths: PathSources) -> bool
    ensures { (before : List BodyEvent) → AreFrom paths before (event_view event.now)
        → result ≡ is_stored_again (outputs_in kind) before (event_view event.now) }
{
    match stored_variable(event) {
        Some(number) => is_output(kind, number) & is_stored(paths, number),
        None => false,
    }
}

/// Adds the warnings of a body.
pub(crate) fn warn_body<'a>(
    alloc: Global,
    warnings: &mut Vec<Warning<'a>>,
    kind: UnitKind,
    events: &[Event<'a>],
) -> Result<(), AllocError>
    ensures added { OnOk result (Warns warnings.old.items warnings.new.items
        (body_warnings kind (events_view events.now))) }
{
    let mut ahead = at_start(alloc);
    let mut above = true;
    let mut asked = is_asked(events);
    for event in events {
        let paths = paths_to(&ahead, event);
        let known = Known {
            begins: begins(event),
            above,
            reached: paths.started,
            again: is_again(kind, event, paths),
            weighs: reads_weight(event),
            asked,
        };
        warn(warnings, number_of(known), event.line, address_of(event))?;
        follow(&mut ahead, event, paths)?;
        above = is_above(known);
        asked = known.asked | known.weighs;
    }
    Ok(())
}
