ghost use Rattle.std.specs.Prelude.{◌≡◌, None, IfOk};
ghost use Rattle.wc_model.specs.Definitions.{body_fault, Validates, text_view};
ghost use Rattle.wc_names.specs.RepresentsText.{AreTables};
ghost use Rattle.wc_verify.specs.CheckedTexts.{AreGiven, WasRead};

use crate::bodies::validate_body;
use crate::checked::Checked;
use std::alloc::Global;
use wc_model::{Fault, Source};
use wc_names::Tables;

/// Checks bodies unit by unit: the first of the refusals 401 to 410, at its line, or its place.
pub fn validate_bodies<'a>(
    alloc: Global,
    source: &Source<'a>,
    tables: &Tables<'a>,
) -> Result<(), Fault>
    ensures { AreTables tables.now (text_view source.now)
        → Validates (body_fault (text_view source.now)) None result }
{
    for (number, unit) in source.units.iter().enumerate() {
        validate_body(alloc, tables, number, &unit.body)?;
    }
    Ok(())
}

/// Verifies the bodies of a text that was read, by its tables: the text with its tables, or the first
/// of the refusals 401 to 410, at its line. `Fault::Memory` if memory is refused.
pub fn verify<'a>(
    alloc: Global,
    source: Source<'a>,
    tables: Tables<'a>,
) -> Result<Checked<'a>, Fault>
    requires read { WasRead (text_view source) }
    requires tables { AreGiven tables (text_view source) }
    ensures source { IfOk result (λ checked. checked.source ≡ source.entry) }
    ensures tables { IfOk result (λ checked. checked.tables ≡ tables.entry) }
    ensures validated { Validates (body_fault (text_view source.entry)) None result }
{
    validate_bodies(alloc, &source, &tables)?;
    Ok(Checked { source, tables })
}
