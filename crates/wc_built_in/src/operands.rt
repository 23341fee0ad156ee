ghost use Rattle.std.specs.Prelude.{◌≡◌};
ghost use Rattle.wc_model.specs.Definitions.{is_bit_literal, is_divisor, term_view};
ghost use Rattle.wc_built_in.specs.WholeNumbers.{whole_number};

use wc_model::{Operand, Value};

/// The whole number that an operand is.
fn whole_number(operand: &Operand<'_>) -> Option<i32>
    ensures { result ≡ whole_number (term_view operand.now) }
{
    match operand {
        Operand::Literal(value) => match value {
            Value::Dint(number) => Some(*number),
            _ => None,
        },
        _ => None,
    }
}

/// Whether an operand is a whole number that is not 0.
pub fn is_divisor(operand: &Operand<'_>) -> bool
    ensures { result ≡ is_divisor (term_view operand.now) }
{
    whole_number(operand).is_some_and(|number| number != 0)
}

/// Whether an operand is a whole number 0 or 1.
pub fn is_bit_literal(operand: &Operand<'_>) -> bool
    ensures { result ≡ is_bit_literal (term_view operand.now) }
{
    whole_number(operand).is_some_and(|number| number == 0 || number == 1)
}
