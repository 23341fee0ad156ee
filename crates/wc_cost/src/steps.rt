ghost use Rattle.std.specs.Prelude.{◌≡◌, Option, [], ◌∷◌, option_map, if◌then◌else◌, pos, ◌-ℤ◌};
ghost use Rattle.wc_text_flat.specs.Lowered.{IsOpening, IsStepLowered, argument_line};
ghost use Rattle.wc_model.specs.Definitions.{Scope, term_view};
ghost use Rattle.wc_model.specs.Language.Tree.{Apply, Lines, Load, Store};
ghost use Rattle.wc_cost.specs.Lowerable.{IsBitWhere, IsLoadable, IsOpenable, IsReadable, IsWritable};
ghost use Rattle.wc_cost.specs.Lowering.{operand_view};
ghost use Rattle.wc_verify.specs.Seeing.{IsScope};

use crate::operands::{FlatOperand, flat_operand, place_of};
use wc_model::{Code, Operand, Operator, Place, StoreKind};
use wc_names::Tables;

/// A number that is loaded; LDN negates 0 and 1.
fn loaded_number(negated: bool, number: i32) -> i32
    ensures { IsBitWhere negated number → result ≡ (if negated then pos 1 -ℤ number else number) }
{
    if !negated {
        return number;
    }
    if number == 0 { 1 } else { 0 }
}

/// The flat line of an argument for the input at a place.
pub(crate) fn argument_line(operand: FlatOperand, target: Place) -> Code
    ensures { result ≡ argument_line (operand_view operand) target }
{
    match operand {
        FlatOperand::Number(number) => Code::ArgumentNumber { number, target },
        FlatOperand::At(place) => Code::ArgumentPlace { place, target },
    }
}

/// LD and LDN.
pub(crate) fn load<'a>(
    tables: &Tables<'a>,
    unit: usize,
    negated: bool,
    operand: &Operand<'_>,
) -> Code
    ensures { (scope : Scope) (rest : Lines) → IsScope tables.now unit scope
        → IsReadable scope (term_view operand.now) → IsLoadable negated (term_view operand.now)
        → IsStepLowered scope rest (Load negated (term_view operand.now)) (result ∷ []) }
{
    match flat_operand(tables, unit, operand) {
        FlatOperand::Number(number) => Code::LoadNumber {
            number: loaded_number(negated, number),
        },
        FlatOperand::At(place) => Code::LoadPlace { negated, place },
    }
}

/// ST, STN, S and R.
pub(crate) fn store<'a>(
    tables: &Tables<'a>,
    unit: usize,
    storing: StoreKind,
    target: &Operand<'_>,
) -> Code
    ensures { (scope : Scope) (rest : Lines) → IsScope tables.now unit scope
        → IsWritable scope (term_view target.now)
        → IsStepLowered scope rest (Store storing (term_view target.now)) (result ∷ []) }
{
    Code::Store {
        storing,
        target: place_of(tables, unit, target),
    }
}

/// An operator with its operand.
pub(crate) fn apply<'a>(
    tables: &Tables<'a>,
    unit: usize,
    operator: Operator,
    operand: &Operand<'_>,
) -> Code
    ensures { (scope : Scope) (rest : Lines) → IsScope tables.now unit scope
        → IsReadable scope (term_view operand.now)
        → IsStepLowered scope rest (Apply operator (term_view operand.now)) (result ∷ []) }
{
    match flat_operand(tables, unit, operand) {
        FlatOperand::Number(number) => Code::ApplyNumber { operator, number },
        FlatOperand::At(place) => Code::ApplyPlace { operator, place },
    }
}

/// An opening line.
pub(crate) fn opening<'a>(tables: &Tables<'a>, unit: usize, operand: &Option<Operand<'a>>) -> Code
    ensures { (scope : Scope) → IsScope tables.now unit scope
        → IsOpenable scope (option_map term_view operand.now)
        → IsOpening scope (option_map term_view operand.now) result }
{
    match operand {
        Some(operand) => match flat_operand(tables, unit, operand) {
            FlatOperand::Number(number) => Code::OpenNumber { number },
            FlatOperand::At(place) => Code::OpenPlace { place },
        },
        None => Code::Open,
    }
}
