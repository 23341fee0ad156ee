ghost use Rattle.std.specs.Prelude.{◌≡◌, ◌<◌, ◌+◌, None, Option, [], ◌∷◌, ℕ, List, Some, map, length, slice_get, option_map, option_and_then};
ghost use Rattle.std.specs.List.{position_from};
ghost use Rattle.wc_model.specs.Definitions.{variable_at, frame_of, place_number, Name, name_of, Scope, Content, Direct, first_content, same_path, standard_fields, unit_places, ProgramUnit};
ghost use Rattle.wc_model.specs.declared.kind.Kind.{Kind};
ghost use Rattle.wc_model.specs.declared.source.Initial.{Initial};
ghost use Rattle.wc_built_in.specs.Fields.{direct_at};
ghost use Rattle.wc_names.specs.RepresentsText.{Represents, first_place, row_named};
ghost use Rattle.wc_names.specs.declared.unit_table.UnitTable.{UnitTable as Table};

use crate::declared_type::DeclaredType;
use crate::unit_table::UnitTable;
use crate::variable::Variable;
use wc_built_in::{field_named, variable_at};
use wc_model::StandardBlock;

/// The variable of that name of a unit.
pub(crate) fn row<'a>(units: &[UnitTable<'a>], unit: usize, name: &[u8]) -> Option<Variable>
    ensures { (table : Table) → slice_get units.now unit ≡ Some table
        → length table.names ≡ length table.rows.items
        → result ≡ row_named table.names table.rows.items (name_of name.now) }
{
    let table = units.get(unit)?;
    let number = table.names.number(name)?;
    let row = table.rows.get(number)?;
    Some(*row)
}

/// The number of a path's place within a standard function block.
fn field_at(block: StandardBlock, names: &[&[u8]]) -> Option<u16>
    ensures { result
        ≡ position_from
        (λ (e : List Name × Content). same_path e.0 (map (λ n. name_of n.now) names.now)) 0
        (map (λ f. (f.0 ∷ [], f.1)) (standard_fields block)) }
{
    let (name, rest) = names.split_first()?;
    if let Some(_) = rest.split_first() {
        return None;
    }
    Some(field_named(block, name)?.number)
}

/// The number of a path's place within a variable of an elementary type.
fn plain_at(names: &[&[u8]]) -> Option<u16>
    ensures { (kind : Kind) (initial : Option Initial)
        → result
        ≡ position_from
        (λ (e : List Name × Content). same_path e.0 (map (λ n. name_of n.now) names.now)) 0
        (([], first_content kind initial) ∷ []) }
{
    if names.is_empty() { Some(0) } else { None }
}

/// The number of a place that is that many after the first.
pub(crate) fn offset_by(first: u16, inner: Option<u16>) -> Option<u16>
    ensures some { (n : ℕ) → inner ≡ Some n → first + n < 65536
        → result ≡ Some (first + n) }
    ensures none { inner ≡ None → result ≡ None }
{
    first.checked_add(inner?)
}

/// The number of a path's place in a unit's frame.
#[cycle(numbers)]
pub(crate) fn number<'a>(units: &[UnitTable<'a>], unit: usize, names: &[&[u8]]) -> Option<u16>
    ensures { (before : List ProgramUnit) (u : ProgramUnit) → Represents units.now before u
        → unit ≡ length before
        → result
        ≡ position_from
        (λ (e : List Name × Content). same_path e.0 (map (λ n. name_of n.now) names.now))
        (first_place u) (unit_places before u) }
{
    let (name, rest) = names.split_first()?;
    let row = row(units, unit, name)?;
    number_after(units, row, rest)
}

/// The number of the place to which the rest of a path leads, after the variable that its first name names.
#[cycle(numbers)]
pub(crate) fn number_after<'a>(
    units: &[UnitTable<'a>],
    row: Variable,
    rest: &[&[u8]],
) -> Option<u16>
    ensures { (before : List ProgramUnit) (u : ProgramUnit) (h : Represents units.now before u)
        (name : Name)
        → row_named h.table.names h.table.rows.items name ≡ Some row
        → result
        ≡ position_from
        (λ (e : List Name × Content). same_path e.0 (name ∷ map (λ n. name_of n.now) rest.now))
        (first_place u) (unit_places before u) }
{
    match row.declared {
        DeclaredType::Elementary(_) => offset_by(row.first, plain_at(rest)),
        DeclaredType::Standard(block) => offset_by(row.first, field_at(block, rest)),
        DeclaredType::Block(block) => offset_by(row.first, number(units, block, rest)),
    }
}

/// The number of the place of a directly represented variable in a unit's frame: a function block has none.
pub(crate) fn direct_number<'a>(units: &[UnitTable<'a>], unit: usize, number: u8) -> Option<u16>
    ensures { (scope : Scope) → Represents units.now scope.before scope.unit
        → unit ≡ length scope.before → number < 45
        → result ≡ place_number (frame_of scope) (Direct (direct_at number)) }
{
    let table = units.get(unit)?;
    if table.is_block {
        return None;
    }
    Some(u16::from(number))
}

/// The number of an address's place in a unit's frame.
pub(crate) fn address<'a>(units: &[UnitTable<'a>], unit: usize, text: &[u8]) -> Option<u16>
    ensures { (scope : Scope) → Represents units.now scope.before scope.unit
        → unit ≡ length scope.before
        → result
        ≡ option_and_then (place_number (frame_of scope))
        (option_map Direct (variable_at (name_of text.now))) }
{
    let number = variable_at(text)?;
    direct_number(units, unit, number)
}
