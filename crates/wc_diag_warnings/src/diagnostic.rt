ghost use Rattle.std.specs.Prelude.{◌≡◌, IfOk, OnOk, IsOkUnless};
ghost use Rattle.wc_model.specs.Definitions.{variables_of, text_view, unit_view};
ghost use Rattle.wc_diag_warnings.specs.Seen.{events_view, warnings_view, Warns};
ghost use Rattle.wc_diag_warnings.specs.Uses.{used_in};
ghost use Rattle.wc_diag_warnings.specs.Warnings.{declared_warnings, unit_warnings, warnings};

use crate::body::warn_body;
use crate::declared::warn_declared;
use crate::events::{Event, events_of};
use crate::used::{fill, no_uses};
use crate::warning::Warning;
use std::alloc::{AllocError, Global};
use wc_model::{Fault, Source, Unit};

/// Adds the warnings of what a unit declares, with what its events use.
fn warn_names<'a>(
    alloc: Global,
    warnings: &mut Vec<Warning<'a>>,
    unit: &Unit<'a>,
    events: &[Event<'a>],
) -> Result<(), AllocError>
    ensures added { OnOk result (Warns warnings.old.items warnings.new.items
        (declared_warnings unit.now.kind (used_in (events_view events.now))
        (variables_of (unit_view unit.now)))) }
{
    let mut uses = no_uses(alloc);
    fill(&mut uses, events)?;
    warn_declared(warnings, unit, &uses)
}

/// Adds the warnings of a unit.
fn warn_unit<'a>(
    alloc: Global,
    warnings: &mut Vec<Warning<'a>>,
    unit: &Unit<'a>,
) -> Result<(), AllocError>
    ensures added { OnOk result
        (Warns warnings.old.items warnings.new.items (unit_warnings (unit_view unit.now))) }
{
    let events = events_of(alloc, &unit.body)?;
    warn_names(alloc, warnings, unit, &events)?;
    warn_body(alloc, warnings, unit.kind, &events)
}

/// The warnings of a program text, in text order.
pub fn find_warnings<'a>(alloc: Global, source: &Source<'a>) -> Result<Vec<Warning<'a>>, Fault>
    ensures found { IfOk result (λ found. warnings_view found.items
        ≡ warnings (text_view source.now)) }
    ensures memory { IsOkUnless result Fault.Memory }
{
    let mut warnings = Vec::new(alloc);
    for unit in &source.units {
        match warn_unit(alloc, &mut warnings, unit) {
            Ok(()) => {}
            Err(_) => return Err(Fault::Memory),
        }
    }
    Ok(warnings)
}
