ghost use Rattle.std.specs.Prelude.{◌≡◌, Option, is_some, if◌then◌else◌};
ghost use Rattle.wc_model.specs.Definitions.{apply_checks, closing_checks, is_bool, is_no_instance, load_checks, opening_checks, opening_operand_checks, store_checks, Scope, Term, term_view};
ghost use Rattle.wc_verify.specs.Seeing.{Finds, IsSeen, IsSeenIfAny};

use crate::refusals::{
    first_of, suits_result, suits_target, unless, validate_divisor, validate_reading,
    validate_result, validate_truth, validate_writing,
};
use crate::seen::OperandFacts;
use wc_built_in::{divides, is_bool};
use wc_model::{Kind, Operand, Operator, StoreKind};

/// Whether LD or LDN takes an operand of the kind.
fn is_loaded(negated: bool, kind: Option<Kind>) -> bool
    ensures { result ≡ (if negated then is_bool kind else is_some kind) }
{
    if negated {
        is_bool(kind)
    } else {
        kind.is_some()
    }
}

/// LD and LDN.
pub(crate) fn validate_load(negated: bool, seen: OperandFacts) -> Option<u16>
    ensures { (scope : Scope) (term : Term) → IsSeen scope term seen
        → Finds (λ line. load_checks scope line negated term) result }
{
    first_of(
        validate_reading(seen),
        unless(is_loaded(negated, seen.kind), 402),
    )
}

/// ST, STN, S and R.
pub(crate) fn validate_store(
    storing: StoreKind,
    seen: OperandFacts,
    kind: Option<Kind>,
) -> Option<u16>
    ensures { (scope : Scope) (term : Term) → IsSeen scope term seen
        → Finds (λ line. store_checks scope line storing term kind) result }
{
    match storing {
        StoreKind::Result => {
            let stored = first_of(
                unless(kind.is_some(), 403),
                unless(suits_target(seen, kind), 402),
            );
            first_of(validate_writing(seen), stored)
        }
        _ => {
            let before = first_of(validate_writing(seen), validate_truth(kind));
            first_of(before, unless(suits_target(seen, kind), 402))
        }
    }
}

/// An operator with its operand.
pub(crate) fn validate_apply(
    operator: Operator,
    operand: &Operand<'_>,
    seen: OperandFacts,
    kind: Option<Kind>,
) -> Option<u16>
    ensures { (scope : Scope) → IsSeen scope (term_view operand.now) seen
        → Finds (λ line. apply_checks scope line operator (term_view operand.now) kind) result }
{
    let before = first_of(validate_reading(seen), validate_result(operator, kind));
    let divided = first_of(before, validate_divisor(operator, operand));
    first_of(
        divided,
        unless(suits_result(operator, operand, seen, kind), 402),
    )
}

/// The operand on an opening line: 401, 405.
fn validate_opening_operand(seen: Option<OperandFacts>) -> Option<u16>
    ensures { (scope : Scope) (term : Option Term) → IsSeenIfAny scope term seen
        → Finds (λ line. opening_operand_checks scope line term) result }
{
    validate_reading(seen?)
}

/// Whether the operand on an opening line is not an instance.
fn is_no_instance(seen: Option<OperandFacts>) -> bool
    ensures { (scope : Scope) (term : Option Term) → IsSeenIfAny scope term seen
        → is_no_instance scope term ≡ result }
{
    match seen {
        Some(seen) => seen.kind.is_some(),
        None => true,
    }
}

/// An opening line.
pub(crate) fn validate_opening(
    operator: Operator,
    seen: Option<OperandFacts>,
    kind: Option<Kind>,
) -> Option<u16>
    ensures { (scope : Scope) (term : Option Term) → IsSeenIfAny scope term seen
        → Finds (λ line. opening_checks scope line operator term kind) result }
{
    let before = first_of(
        validate_opening_operand(seen),
        validate_result(operator, kind),
    );
    let own = first_of(
        unless(!divides(operator), 408),
        unless(is_no_instance(seen), 402),
    );
    first_of(before, own)
}

/// A `)`.
pub(crate) fn validate_closing(outer: Option<Kind>, inner: Option<Kind>) -> Option<u16>
    ensures { Finds (λ line. closing_checks line outer inner) result }
{
    first_of(unless(inner.is_some(), 403), unless(outer == inner, 402))
}
