ghost use Rattle.std.specs.Prelude.{◌≡◌};
ghost use Rattle.wc_model.specs.Definitions.{divides, takes, compares, takes_truth};

use wc_model::{Kind, Operator};

/// Whether an operator compares.
pub(crate) fn compares(operator: Operator) -> bool
    ensures { result ≡ compares operator }
{
    matches!(
        operator,
        Operator::Gt | Operator::Ge | Operator::Eq | Operator::Ne | Operator::Le | Operator::Lt
    )
}

/// Whether an operator divides.
pub fn divides(operator: Operator) -> bool
    ensures { result ≡ divides operator }
{
    matches!(operator, Operator::Div | Operator::Mod)
}

/// Whether a literal 0 or 1 serves an operator as a BOOL.
pub fn takes_truth(operator: Operator) -> bool
    ensures { result ≡ takes_truth operator }
{
    match operator {
        Operator::And
        | Operator::Andn
        | Operator::Or
        | Operator::Orn
        | Operator::Xor
        | Operator::Xorn
        | Operator::Eq
        | Operator::Ne => true,
        _ => false,
    }
}

/// Whether an operator takes a result of the kind.
pub fn takes(operator: Operator, kind: Kind) -> bool
    ensures { result ≡ takes operator kind }
{
    match kind {
        Kind::Bool => takes_truth(operator),
        Kind::Dint => takes_number(operator),
        Kind::Time => takes_duration(operator),
    }
}

/// Whether an operator takes a DINT.
fn takes_number(operator: Operator) -> bool
    ensures { result ≡ takes operator Kind.Dint }
{
    match operator {
        Operator::And
        | Operator::Andn
        | Operator::Or
        | Operator::Orn
        | Operator::Xor
        | Operator::Xorn => false,
        _ => true,
    }
}

/// Whether an operator takes a TIME.
fn takes_duration(operator: Operator) -> bool
    ensures { result ≡ takes operator Kind.Time }
{
    !matches!(operator, Operator::Mul | Operator::Div | Operator::Mod) && takes_number(operator)
}
