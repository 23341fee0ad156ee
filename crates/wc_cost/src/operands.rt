ghost use Rattle.std.specs.Prelude.{◌≡◌};
ghost use Rattle.wc_text_flat.specs.Lowered.{IsOperand, IsPlaceOf};
ghost use Rattle.wc_model.specs.Definitions.{content_number, Scope, readable_place, writable_place, term_view};
ghost use Rattle.wc_model.specs.Language.Store.{Plain};
ghost use Rattle.wc_cost.specs.Lowerable.{HasPlace, IsReadable};
ghost use Rattle.wc_cost.specs.Lowering.{operand_view};
ghost use Rattle.wc_verify.specs.Seeing.{IsScope};

use wc_model::{Operand, Place, Value};
use wc_names::Tables;

/// What represents an operand on a flat line.
#[derive(Clone, Copy)]
pub(crate) enum FlatOperand {
    /// A literal's number.
    Number(i32),
    /// A place of the unit's frame.
    At(Place),
}

/// A literal as a number.
fn number_of(value: Value) -> i32
    ensures { result ≡ content_number (Plain value) }
{
    match value {
        Value::Bool(false) => 0,
        Value::Bool(true) => 1,
        Value::Dint(number) => number,
        Value::Time(milliseconds) => milliseconds,
    }
}

/// The place of what an operand names; if there is none, the first of the frame.
pub(crate) fn place_of<'a>(tables: &Tables<'a>, unit: usize, operand: &Operand<'_>) -> Place
    ensures read { (scope : Scope) → IsScope tables.now unit scope
        → HasPlace scope (readable_place scope (term_view operand.now))
        → IsPlaceOf scope (readable_place scope (term_view operand.now)) result }
    ensures written { (scope : Scope) → IsScope tables.now unit scope
        → HasPlace scope (writable_place scope (term_view operand.now))
        → IsPlaceOf scope (writable_place scope (term_view operand.now)) result }
{
    let Some(entity) = tables.entity(unit, operand) else {
        return Place(0);
    };
    match entity.place {
        Some(place) => place,
        None => Place(0),
    }
}

/// What represents an operand on a flat line.
pub(crate) fn flat_operand<'a>(
    tables: &Tables<'a>,
    unit: usize,
    operand: &Operand<'_>,
) -> FlatOperand
    ensures { (scope : Scope) → IsScope tables.now unit scope
        → IsReadable scope (term_view operand.now)
        → IsOperand scope (term_view operand.now) (operand_view result) }
{
    match operand {
        Operand::Literal(value) => FlatOperand::Number(number_of(*value)),
        Operand::Address(_) => FlatOperand::At(place_of(tables, unit, operand)),
        Operand::Name(_) => FlatOperand::At(place_of(tables, unit, operand)),
        Operand::Field { .. } => FlatOperand::At(place_of(tables, unit, operand)),
    }
}
