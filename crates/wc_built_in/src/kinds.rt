ghost use Rattle.std.specs.Prelude.{◌≡◌};
ghost use Rattle.wc_model.specs.Definitions.{is_bool, kind_after_operator};

use crate::operators::compares;
use wc_model::{Kind, Operator};

/// Whether there is a kind, and it is BOOL.
pub fn is_bool(kind: Option<Kind>) -> bool
    ensures { result ≡ is_bool kind }
{
    kind == Some(Kind::Bool)
}

/// The kind of the result after an operator, from that before it.
pub fn kind_after_operator(operator: Operator, kind: Option<Kind>) -> Option<Kind>
    ensures { result ≡ kind_after_operator operator kind }
{
    if compares(operator) {
        Some(Kind::Bool)
    } else {
        kind
    }
}
