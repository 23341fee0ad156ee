ghost use Rattle.std.specs.Prelude.{◌≡◌, ◌<◌, ◌≤◌, ◌-◌, ℕ, List, MatchOption, Some, length, slice_get, slice_index_or};
ghost use Rattle.std.specs.List.Sorted.{IsNonDecreasingBy};
ghost use Rattle.wc_model.specs.Definitions.{Name, name_of, Content, unit_places, ProgramUnit};
ghost use Rattle.wc_names.specs.Carrying.{HasPlace, field_within, kept_from, plain_within};
ghost use Rattle.wc_names.specs.RepresentsText.{IsTableOf, Represents, first_place};
ghost use Rattle.wc_names.specs.declared.variable.Variable.{Variable as Row};

use crate::declared_type::DeclaredType;
use crate::lookup::{offset_by, row};
use crate::unit_table::UnitTable;
use crate::variable::Variable;
use wc_model::{Kind, StandardBlock};

/// A variable with its name.
#[derive(Clone, Copy)]
struct VariableEntry<'a> {
    /// The name, as it is spelled.
    name: &'a [u8],
    /// What the unit's table keeps of it.
    row: Variable,
}

/// The number of those variables that begin at a place or before it, if they are in the order of their places.
fn count_at_or_before(rows: &[Variable], number: u16) -> usize
    ensures before { IsNonDecreasingBy (λ (row : Row). row.first) rows.now
        → (k : ℕ) (d : Row) → k < result → (slice_index_or rows.now k d).first ≤ number }
    ensures following { IsNonDecreasingBy (λ (row : Row). row.first) rows.now
        → (k : ℕ) (d : Row) → result ≤ k → k < length rows.now
        → number < (slice_index_or rows.now k d).first }
    ensures bound { result ≤ length rows.now }
{
    rows.partition_point(|row| row.first <= number)
}

/// The variable of a unit that has the place with this number: the last that begins there or before.
fn variable_with<'a>(table: &UnitTable<'a>, number: u16) -> Option<VariableEntry<'a>>
    ensures { (before : List ProgramUnit) (u : ProgramUnit) (entry : List Name × Content)
        → IsTableOf before u table.now → first_place u ≤ number
        → slice_get (unit_places before u) (number - first_place u) ≡ Some entry
        → MatchOption result ⊥
        (λ found. HasPlace before u number entry (name_of found.name.now) found.row) }
{
    let at = count_at_or_before(&table.rows, number).checked_sub(1)?;
    let name = table.names.at(at)?;
    let row = table.rows.get(at)?;
    Some(VariableEntry { name, row: *row })
}

/// The number of a plain variable's place among those of a variable of a type, if it keeps its value.
fn plain_within(kind: Kind, declared: DeclaredType) -> Option<u16>
    ensures { result ≡ plain_within kind declared }
{
    match declared {
        DeclaredType::Elementary(other) => { if other == kind { Some(0) } else { None } }
        _ => None,
    }
}

/// The number of the field with this number of a standard function block among those of a variable of a type, if it keeps its value.
fn field_within(block: StandardBlock, number: u16, declared: DeclaredType) -> Option<u16>
    ensures { result ≡ field_within block number declared }
{
    match declared {
        DeclaredType::Standard(other) => { if other == block { Some(number) } else { None } }
        _ => None,
    }
}

/// The number in an old unit's frame of the place whose value a place of a new unit keeps. It looks up one name, and goes
/// on from the types that the two variables of this name have.
pub(crate) fn kept_number<'a, 'o>(
    units: &[UnitTable<'a>],
    unit: usize,
    old_units: &[UnitTable<'o>],
    old_unit: usize,
    number: u16,
) -> Option<u16>
    ensures { (before : List ProgramUnit) (u : ProgramUnit) (old_before : List ProgramUnit)
        (old : ProgramUnit) (entry : List Name × Content)
        → Represents units.now before u → unit ≡ length before
        → Represents old_units.now old_before old → old_unit ≡ length old_before
        → first_place u ≤ number
        → slice_get (unit_places before u) (number - first_place u) ≡ Some entry
        → result ≡ kept_from before u old_before old entry.0 }
{
    let table = units.get(unit)?;
    let found = variable_with(table, number)?;
    let old = row(old_units, old_unit, found.name)?;
    let inner = number.saturating_sub(found.row.first);
    match found.row.declared {
        DeclaredType::Elementary(kind) => offset_by(old.first, plain_within(kind, old.declared)),
        DeclaredType::Standard(block) => {
            offset_by(old.first, field_within(block, inner, old.declared))
        }
        DeclaredType::Block(block) => match old.declared {
            DeclaredType::Block(other) => {
                // A block precedes the unit that has its instance, so this is always so.
                if block < unit {
                    offset_by(
                        old.first,
                        kept_number(units, block, old_units, other, inner),
                    )
                } else {
                    None
                }
            }
            _ => None,
        },
    }
}
