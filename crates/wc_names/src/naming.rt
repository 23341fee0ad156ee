ghost use Rattle.std.specs.Prelude.{◌≡◌, ◌<◌, Some, None, true, false, option_map, length};
ghost use Rattle.wc_model.specs.Definitions.{is_output, kind_of_direct, name_of, Scope, entity_of, is_input, is_result, kind_of, term_view, word_view};
ghost use Rattle.wc_model.specs.Language.Tree.{Address, Field, Variable as NameOf};
ghost use Rattle.wc_built_in.specs.Fields.{direct_at};
ghost use Rattle.wc_names.specs.Numbered.{numbered_entity};
ghost use Rattle.wc_names.specs.RepresentsText.{Represents};

use crate::entity::Entity;
use crate::lookup::{direct_number, number_after, offset_by, row};
use crate::member::{kind_of, member_of};
use crate::unit_table::UnitTable;
use wc_built_in::variable_at;
use wc_model::{Kind, Operand, Place, Section, Value, Word};

/// A number as a place.
pub(crate) fn place_at(number: Option<u16>) -> Option<Place>
    ensures number { option_map (λ p. p.0) result ≡ number }
    ensures place { result ≡ option_map (λ n. record { 0 = n }) number }
{
    Some(Place(number?))
}

/// The kind of a literal.
fn kind_of_value(value: Value) -> Kind
    ensures { result ≡ kind_of value }
{
    match value {
        Value::Bool(_) => Kind::Bool,
        Value::Dint(_) => Kind::Dint,
        Value::Time(_) => Kind::Time,
    }
}

/// The kind of a directly represented variable: the weights and the output words are DINT.
fn kind_of_direct(number: u8) -> Kind
    requires { number < 45 }
    ensures { result ≡ kind_of_direct (direct_at number) }
{
    match number {
        22..=24 | 41.. => Kind::Dint,
        _ => Kind::Bool,
    }
}

/// Whether a directly represented variable is an output.
fn is_output(number: u8) -> bool
    requires { number < 45 }
    ensures { result ≡ is_output (direct_at number) }
{
    number >= 25
}

/// Whether variables of a section are inputs.
pub(crate) fn is_input(section: Section) -> bool
    ensures { result ≡ is_input section }
{
    matches!(section, Section::Input)
}

/// Whether variables of a section are outputs.
pub(crate) fn is_result(section: Section) -> bool
    ensures { result ≡ is_result section }
{
    matches!(section, Section::Output)
}

/// What an address names in the body of a unit.
fn address_entity<'a>(units: &[UnitTable<'a>], unit: usize, word: Word<'_>) -> Option<Entity>
    ensures { (scope : Scope) → Represents units.now scope.before scope.unit
        → unit ≡ length scope.before
        → result
        ≡ option_map (numbered_entity scope) (entity_of scope (Address (word_view word.entry))) }
{
    let number = variable_at(word.text)?;
    Some(Entity {
        kind: Some(kind_of_direct(number)),
        readable: true,
        writable: is_output(number),
        place: place_at(direct_number(units, unit, number)),
    })
}

/// What a name names in the body of a unit.
fn name_entity<'a>(units: &[UnitTable<'a>], unit: usize, name: &[u8]) -> Option<Entity>
    ensures { (scope : Scope) → Represents units.now scope.before scope.unit
        → unit ≡ length scope.before
        → result
        ≡ option_map (numbered_entity scope) (entity_of scope (NameOf (name_of name.now))) }
{
    let row = row(units, unit, name)?;
    Some(Entity {
        kind: kind_of(row.declared),
        readable: true,
        writable: !is_input(row.section),
        place: place_at(number_after(units, row, &[])),
    })
}

/// What a field of an instance names in the body of a unit.
fn field_entity<'a>(
    units: &[UnitTable<'a>],
    unit: usize,
    instance: &[u8],
    field: &[u8],
) -> Option<Entity>
    ensures { (scope : Scope) → Represents units.now scope.before scope.unit
        → unit ≡ length scope.before
        → result
        ≡ option_map (numbered_entity scope)
        (entity_of scope (Field (name_of instance.now) (name_of field.now))) }
{
    let row = row(units, unit, instance)?;
    let member = member_of(units, row.declared, field)?;
    Some(Entity {
        kind: member.kind,
        readable: is_result(member.section),
        writable: is_input(member.section),
        place: place_at(offset_by(row.first, member.place)),
    })
}

/// What an operand names in the body of a unit.
pub(crate) fn entity<'a>(
    units: &[UnitTable<'a>],
    unit: usize,
    operand: &Operand<'_>,
) -> Option<Entity>
    ensures { (scope : Scope) → Represents units.now scope.before scope.unit
        → unit ≡ length scope.before
        → result ≡ option_map (numbered_entity scope) (entity_of scope (term_view operand.now)) }
{
    match operand {
        Operand::Literal(value) => Some(Entity {
            kind: Some(kind_of_value(*value)),
            readable: true,
            writable: false,
            place: None,
        }),
        Operand::Address(word) => address_entity(units, unit, *word),
        Operand::Name(text) => name_entity(units, unit, text),
        Operand::Field { instance, field } => { field_entity(units, unit, instance, field) }
    }
}
