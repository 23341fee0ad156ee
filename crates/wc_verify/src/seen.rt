ghost use Rattle.wc_model.specs.Definitions.{Scope, term_view};
ghost use Rattle.wc_verify.specs.Seeing.{IsScope, IsSeen};

use wc_model::{Kind, Operand};
use wc_names::Tables;

/// What is known of an operand.
#[derive(Clone, Copy)]
pub(crate) struct OperandFacts {
    /// Whether there is what it names.
    pub(crate) known: bool,
    /// Whether that may be read, or is not there.
    pub(crate) readable: bool,
    /// Whether that may be written, or is not there.
    pub(crate) writable: bool,
    /// Its kind; an instance has none.
    pub(crate) kind: Option<Kind>,
}

/// What an operand names in the body of a unit.
pub(crate) fn see<'a>(tables: &Tables<'a>, unit: usize, operand: &Operand<'_>) -> OperandFacts
    ensures { (scope : Scope) → IsScope tables.now unit scope
        → IsSeen scope (term_view operand.now) result }
{
    match tables.entity(unit, operand) {
        Some(entity) => OperandFacts {
            known: true,
            readable: entity.readable,
            writable: entity.writable,
            kind: entity.kind,
        },
        None => OperandFacts {
            known: false,
            readable: true,
            writable: true,
            kind: None,
        },
    }
}
