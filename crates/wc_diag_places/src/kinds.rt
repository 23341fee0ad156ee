ghost use Rattle.std.specs.Prelude.{◌≡◌, option_map};
ghost use Rattle.wc_diag_places.specs.Lists.{operand_in};
ghost use Rattle.wc_model.specs.Language.Views.{term_view};

use crate::arguments::text_at;
use crate::operand_tokens::{is_closing, opens};
use wc_built_in::{takes, takes_truth};
use wc_diag_texts::Case;
use wc_lexer::{Shape, Token};
use wc_model::{Kind, Operand, StoreKind};
use wc_names::{DeclaredType, Entity, Tables};
use wc_text_bodies::operand_of;
use wc_text_lines::{OperandOperator, Operation, operation_of};

/// The operand that some tokens are: one alone, or a name with a field.
pub(crate) fn operand_in<'a>(operand_tokens: &[Token<'a>]) -> Option<Operand<'a>>
    ensures { option_map term_view result ≡ operand_in operand_tokens.now }
{
    let (first, last) = (operand_tokens.first()?, operand_tokens.last()?);
    if operand_tokens.len() > 1 {
        return Some(Operand::Field {
            instance: first.text,
            field: last.text,
        });
    }
    operand_of(*first)
}

/// What some tokens name.
pub(crate) fn entity_in(
    tables: &Tables<'_>,
    unit: usize,
    operand_tokens: &[Token<'_>],
) -> Option<Entity> {
    tables.entity(unit, &operand_in(operand_tokens)?)
}

/// Whether some tokens are a literal 0 or 1.
pub(crate) fn is_bit(operand_tokens: &[Token<'_>]) -> bool {
    matches!(operand_tokens.first(), Some(token) if matches!(token.shape, Shape::Whole(0 | 1)))
}

/// What does not fit if an operand of a kind follows its operator.
fn unfit_operand(operating: OperandOperator, kind: Kind, is_bit: bool) -> Case {
    match operating {
        OperandOperator::Applies(operator) if takes(operator, kind) => Case::Unlike(kind),
        OperandOperator::Applies(operator) if is_bit && takes_truth(operator) => Case::Result,
        OperandOperator::Loads(false) | OperandOperator::Stores(StoreKind::Result) => Case::Unlike(
            kind,
        ),
        OperandOperator::Loads(_) | OperandOperator::Stores(_) if kind == Kind::Bool =>
            Case::Unlike(kind),
        _ => Case::Untaken(kind),
    }
}

/// Whether a name is that of a variable of the unit that is no instance.
fn is_plain(tables: &Tables<'_>, unit: usize, name: &[u8]) -> bool {
    let found = tables.variable(unit, name);
    found.is_some_and(|found| matches!(found.declared, DeclaredType::Elementary(_)))
}

/// What does not fit in an instruction without a list whose kinds are refused.
pub fn unfit(tables: &Tables<'_>, unit: usize, tokens: &[Token<'_>], term: &[Token<'_>]) -> Case {
    let Some(token) = tokens.first() else {
        return Case::Result;
    };
    let kind = entity_in(tables, unit, term).and_then(|entity| entity.kind);
    match (operation_of(*token), kind) {
        _ if is_closing(token) => Case::Closing,
        (Some(Operation::Operates(_)), None) if operand_in(term).is_some() => Case::Instance,
        (Some(Operation::Operates(operating)), Some(kind)) if !opens(tokens) => {
            unfit_operand(operating, kind, is_bit(term))
        }
        (Some(Operation::Calls(_)), _) if is_plain(tables, unit, text_at(term, 0)) => {
            Case::NoInstance
        }
        _ => Case::Result,
    }
}
