ghost use Rattle.std.specs.Prelude.{IsErrOf};
ghost use Rattle.toml.specs.Errors.{IsBlank};
ghost use Rattle.toml.specs.View.{table_view};
ghost use Rattle.wc_plate.specs.TomlTable.{entries_of};
ghost use Rattle.wc_plate.specs.Verdict.{IsVerdictOn, ValidatesTable};

use crate::broken::BrokenRule;
use crate::kept::Plate;
use crate::keys::written_in;
use crate::validation::validate_written;
use std::alloc::Global;
use toml::Table;
use wc_model::Fault;

/// The plate of a table, or the first rule that it breaks, with the key at fault and what it was checked by.
pub fn plate_of(table: &Table) -> Result<Plate, BrokenRule<'_>>
    ensures { ValidatesTable (entries_of (table_view table.now)) result }
{
    let written = written_in(table)?;
    validate_written(&written)
}

/// Reads a plate. A text that is not TOML is refused by 501, keys that are not the seven by 502, and by 503 to 508
/// what breaks a rule on their values; the place of a refusal is 0. `Memory` comes only if an allocation was
/// refused, so never for a text of blanks.
pub fn plate(alloc: Global, text: &[u8]) -> Result<Plate, Fault>
    ensures verdict { IsVerdictOn text.now result }
    ensures memory { IsErrOf result Fault.Memory → ¬ IsBlank text.now }
{
    let table = match toml::table_from_slice(alloc, text) {
        Ok(table) => table,
        Err(error) if error.is_memory() => return Err(Fault::Memory),
        Err(_) => return Err(Fault::Refused {
            number: 501,
            place: 0,
        }),
    };
    match plate_of(&table) {
        Ok(plate) => Ok(plate),
        Err(rule) => Err(Fault::Refused {
            number: rule.number(),
            place: 0,
        }),
    }
}
