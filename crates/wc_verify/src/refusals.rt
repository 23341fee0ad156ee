ghost use Rattle.std.specs.Prelude.{◌≡◌, ℕ, [], ◌∷◌, IfErr, Option};
ghost use Rattle.wc_model.specs.Definitions.{condition_checks, divisor_checks, is_of, takes, reading_checks, result_checks, suits_result, suits_target, truth_checks, writing_checks, Refusal, asks, is_kind, Scope, Term, term_view, Validates};
ghost use Rattle.wc_verify.specs.Seeing.{Finds, first_at, IsSeen};

use crate::seen::OperandFacts;
use wc_built_in::{divides, is_bit_literal, is_bool, is_divisor, takes, takes_truth};
use wc_model::{Condition, Fault, Kind, Operand, Operator};

/// The number of a rule that does not hold.
pub(crate) fn unless(holds: bool, number: u16) -> Option<u16>
    ensures { Finds (λ line. asks number line holds ∷ []) result }
{
    if holds { None } else { Some(number) }
}

/// The first of two rules that is broken.
pub(crate) fn first_of(first: Option<u16>, then: Option<u16>) -> Option<u16>
    ensures { (line : ℕ) (rest : Option Refusal)
        → first_at result line rest ≡ first_at first line (first_at then line rest) }
{
    first.or(then)
}

/// A refusal.
pub(crate) fn refusal(number: u16, place: u32) -> Fault
    ensures { result ≡ Fault.Refused number place }
{
    Fault::Refused { number, place }
}

/// Refuses at a line what breaks a rule.
pub(crate) fn refuse(number: Option<u16>, line: u32) -> Result<(), Fault>
    ensures validates { (found rest : Option Refusal) → found ≡ first_at number line rest
        → Validates found rest result }
    // No memory is taken here, so out of memory is not reported.
    ensures refuses { IfErr result (λ fault. fault ≡ Fault.Memory → ⊥) }
{
    match number {
        Some(number) => Err(refusal(number, line)),
        None => Ok(()),
    }
}

/// What is read: 401, 405.
pub(crate) fn validate_reading(seen: OperandFacts) -> Option<u16>
    ensures { (scope : Scope) (term : Term) → IsSeen scope term seen
        → Finds (λ line. reading_checks scope line term) result }
{
    first_of(unless(seen.known, 401), unless(seen.readable, 405))
}

/// What is written: 401, 404.
pub(crate) fn validate_writing(seen: OperandFacts) -> Option<u16>
    ensures { (scope : Scope) (term : Term) → IsSeen scope term seen
        → Finds (λ line. writing_checks scope line term) result }
{
    first_of(unless(seen.known, 401), unless(seen.writable, 404))
}

/// Whether an operator takes the result, if there is one.
fn is_taken(operator: Operator, kind: Option<Kind>) -> bool
    ensures { result ≡ is_of (takes operator) kind }
{
    match kind {
        Some(kind) => takes(operator, kind),
        None => false,
    }
}

/// The result before an operator: 403, 402.
pub(crate) fn validate_result(operator: Operator, kind: Option<Kind>) -> Option<u16>
    ensures { Finds (λ line. result_checks operator line kind) result }
{
    first_of(
        unless(kind.is_some(), 403),
        unless(is_taken(operator, kind), 402),
    )
}

/// The result if a BOOL is wanted: 403, 402.
pub(crate) fn validate_truth(kind: Option<Kind>) -> Option<u16>
    ensures { Finds (λ line. truth_checks line kind) result }
{
    first_of(unless(kind.is_some(), 403), unless(is_bool(kind), 402))
}

/// The result before a conditional: 403, 402.
pub(crate) fn validate_condition(condition: Condition, kind: Option<Kind>) -> Option<u16>
    ensures { Finds (λ line. condition_checks condition line kind) result }
{
    match condition {
        Condition::Always => None,
        Condition::IfTrue => validate_truth(kind),
        Condition::IfFalse => validate_truth(kind),
    }
}

/// The divisor: 408.
pub(crate) fn validate_divisor(operator: Operator, operand: &Operand<'_>) -> Option<u16>
    ensures { Finds (λ line. divisor_checks operator line (term_view operand.now)) result }
{
    unless(!divides(operator) || is_divisor(operand), 408)
}

/// Whether an operand is of a kind.
pub(crate) fn is_of_kind(kind: Kind, seen: Option<Kind>) -> bool
    ensures { result ≡ is_of (is_kind kind) seen }
{
    seen.is_some_and(|seen| seen == kind)
}

/// Whether an operand suits the result before its operator.
pub(crate) fn suits_result(
    operator: Operator,
    operand: &Operand<'_>,
    seen: OperandFacts,
    kind: Option<Kind>,
) -> bool
    ensures { (scope : Scope) → IsSeen scope (term_view operand.now) seen
        → result ≡ suits_result scope operator (term_view operand.now) kind }
{
    match kind {
        Some(kind) => {
            is_of_kind(kind, seen.kind)
                || kind == Kind::Bool && takes_truth(operator) && is_bit_literal(operand)
        }
        None => false,
    }
}

/// Whether what is written is of the result's kind.
pub(crate) fn suits_target(seen: OperandFacts, kind: Option<Kind>) -> bool
    ensures { (scope : Scope) (term : Term) → IsSeen scope term seen
        → result ≡ suits_target scope term kind }
{
    kind.is_some_and(|kind| is_of_kind(kind, seen.kind))
}
