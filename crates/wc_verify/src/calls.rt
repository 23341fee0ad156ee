ghost use Rattle.std.specs.Prelude.{◌≡◌, ◌<◌, ◌∷◌, ◌++◌, List, Some, IfErr, OnOk, length, map, flat_map};
ghost use Rattle.wc_model.specs.Definitions.{actual_checks, argument_checks, call_checks, suits_input, Check, first_broken, positions_of, Member, VariableType, members_of, elementary_kind, name_of, Scope, Assignment, assignment_view, term_view, Validates};
ghost use Rattle.wc_names.specs.Numbered.{numbered_type};
ghost use Rattle.wc_verify.specs.Seeing.{Finds, HoldsNames, is_numbered_instance, IsScope, IsSeen};

use crate::refusals::{
    first_of, is_of_kind, refusal, refuse, unless, validate_condition, validate_reading,
    validate_writing,
};
use crate::seen::{OperandFacts, see};
use std::alloc::Global;
use wc_built_in::is_bit_literal;
use wc_model::{Argument, Condition, Direction, Fault, Kind, Operand};
use wc_names::{DeclaredType, Names, Tables};

/// Whether an input of a kind takes what is assigned.
fn suits_input(kind: Kind, operand: &Operand<'_>, seen: OperandFacts) -> bool
    ensures { (scope : Scope) (m : Member) → IsSeen scope (term_view operand.now) seen
        → elementary_kind m.type ≡ Some kind
        → suits_input scope (Some m) (term_view operand.now) ≡ result }
{
    is_of_kind(kind, seen.kind) || kind == Kind::Bool && is_bit_literal(operand)
}

/// What is passed to an input of a kind, by 401, 405 and 402, or from an output of one, by 401, 404 and 402.
fn validate_actual(
    direction: Direction,
    kind: Kind,
    operand: &Operand<'_>,
    seen: OperandFacts,
) -> Option<u16>
    ensures { (scope : Scope) (m : Member) → IsSeen scope (term_view operand.now) seen
        → elementary_kind m.type ≡ Some kind
        → Finds (λ line. actual_checks scope line direction (Some m) (term_view operand.now))
        result }
{
    match direction {
        Direction::Into => {
            let suits = suits_input(kind, operand, seen);
            first_of(validate_reading(seen), unless(suits, 402))
        }
        Direction::OutOf => {
            let suits = is_of_kind(kind, seen.kind);
            first_of(validate_writing(seen), unless(suits, 402))
        }
    }
}

/// Checks one of a call's list after others, and keeps its name: 409, 410, and what is passed.
pub fn validate_argument<'a>(
    tables: &Tables<'a>,
    unit: usize,
    declared: DeclaredType,
    names: &mut Names<'a>,
    argument: &Argument<'a>,
    line: u32,
) -> Result<(), Fault>
    ensures validated { (scope : Scope) (type : VariableType) (before following : List Assignment)
        (rest : List Check) → IsScope tables.now unit scope
        → numbered_type scope.before type ≡ Some declared → HoldsNames names.old before
        → Validates (first_broken
        (argument_checks scope line (members_of scope.before type)
        (record { before = before; item = assignment_view argument.now; following = following })
        ++ rest)) (first_broken rest) result }
    ensures held { OnOk result
        ((before : List Assignment) → HoldsNames names.old before
        → HoldsNames names.new (assignment_view argument.now ∷ before)) }
{
    let Some(formal) = tables.formal(declared, argument.direction, argument.name) else {
        return Err(refusal(409, line));
    };
    let new = names.add(argument.name)?;
    if !new {
        return Err(refusal(410, line));
    }
    let seen = see(tables, unit, &argument.value);
    let found = validate_actual(argument.direction, formal.kind, &argument.value, seen);
    refuse(found, line)
}

/// Checks the arguments of a call in written order.
fn validate_arguments<'a>(
    alloc: Global,
    tables: &Tables<'a>,
    unit: usize,
    declared: DeclaredType,
    arguments: &[Argument<'a>],
    line: u32,
) -> Result<(), Fault>
    ensures validated { (scope : Scope) (type : VariableType) (rest : List Check)
        → IsScope tables.now unit scope → numbered_type scope.before type ≡ Some declared
        → Validates
        (first_broken
        (flat_map (argument_checks scope line (members_of scope.before type))
        (positions_of (map assignment_view arguments.now)) ++ rest)) (first_broken rest) result }
    // With an empty list no memory is taken.
    ensures memory { IfErr result (λ fault. fault ≡ Fault.Memory → 0 < length arguments.now) }
{
    let mut names = Names::new(alloc);
    for argument in arguments {
        validate_argument(tables, unit, declared, &mut names, argument, line)?;
    }
    Ok(())
}

/// Whether a type is that of an instance.
fn is_instance(declared: DeclaredType) -> bool
    ensures { result ≡ is_numbered_instance declared }
{
    !matches!(declared, DeclaredType::Elementary(_))
}

/// Checks a call: 401, 402, the condition, and then its arguments.
pub(crate) fn validate_call<'a>(
    alloc: Global,
    tables: &Tables<'a>,
    unit: usize,
    condition: Condition,
    instance: &[u8],
    arguments: &[Argument<'a>],
    line: u32,
    kind: Option<Kind>,
) -> Result<(), Fault>
    ensures validated { (scope : Scope) (rest : List Check) → IsScope tables.now unit scope
        → Validates
        (first_broken
        (call_checks scope line condition (name_of instance.now)
        (map assignment_view arguments.now) kind ++ rest)) (first_broken rest) result }
    // With an empty list no memory is taken, so no refusal is reported as out of memory.
    ensures memory { IfErr result (λ fault. fault ≡ Fault.Memory → 0 < length arguments.now) }
{
    let Some(found) = tables.variable(unit, instance) else {
        return Err(refusal(401, line));
    };
    if !is_instance(found.declared) {
        return Err(refusal(402, line));
    }
    match validate_condition(condition, kind) {
        Some(number) => Err(refusal(number, line)),
        None => validate_arguments(alloc, tables, unit, found.declared, arguments, line),
    }
}
