ghost use Rattle.std.specs.Prelude.{◌≡◌, ◌+◌, ◌<◌, Some, OnOk, length, map};
ghost use Rattle.wc_names.specs.Numbered.{numbered_type};
ghost use Rattle.wc_text_flat.specs.{step_sources, IsBodyOf, IsStepLowered, first_place};
ghost use Rattle.wc_model.specs.Definitions.{VariableType, Name, name_of, Scope, type_of, Call, Lines, assignment_view};
ghost use Rattle.wc_cost.specs.Lowerable.{ArePassable, IsCallable};
ghost use Rattle.wc_cost.specs.Lowering.{Adds};
ghost use Rattle.wc_verify.specs.Seeing.{IsScope};

use crate::arguments::put_arguments;
use crate::flat::Flat;
use std::alloc::AllocError;
use wc_model::{Argument, Code, Condition, Direction, Place};
use wc_names::{DeclaredType, Tables};

/// The number of a unit in 16 bits.
fn unit_number(number: usize) -> u16
    ensures { number < 65536 → result ≡ number }
{
    u16::try_from(number).unwrap_or(u16::MAX)
}

/// The number of flat lines after a call's own, for its inputs, its body and its outputs.
fn call_length(arguments: usize) -> u32
    ensures { arguments < 65536 → result ≡ 1 + arguments }
{
    u32::try_from(arguments)
        .unwrap_or(u32::MAX)
        .saturating_add(1)
}

/// The body of an instance of this type, whose places begin there.
fn body_at(declared: DeclaredType, at: Place) -> Code
    ensures { (scope : Scope) (name : Name) (type : VariableType)
        → numbered_type scope.before type ≡ Some declared
        → first_place scope name ≡ Some at.0
        → IsCallable scope (Some type) → IsBodyOf scope name (Some type) result }
{
    match declared {
        DeclaredType::Elementary(_) => Code::Not,
        DeclaredType::Standard(block) => Code::Standard { block, at },
        DeclaredType::Block(number) => Code::Body {
            unit: unit_number(number),
            at,
        },
    }
}

/// The body of the instance of that name.
fn body_line<'a>(tables: &Tables<'a>, unit: usize, instance: &[u8]) -> Code
    ensures { (scope : Scope) → IsScope tables.now unit scope
        → IsCallable scope (type_of scope (name_of instance.now))
        → IsBodyOf scope (name_of instance.now) (type_of scope (name_of instance.now)) result }
{
    match tables.variable(unit, instance) {
        Some(located) => body_at(located.declared, Place(located.first)),
        None => Code::Not,
    }
}

/// Puts the flat lines of a call before those that are there.
pub(crate) fn put_call<'a>(
    tables: &Tables<'a>,
    unit: usize,
    condition: Condition,
    instance: &[u8],
    list: &[Argument<'a>],
    line: u32,
    flat: &mut Flat,
) -> Result<(), AllocError>
    ensures { OnOk result
        ((scope : Scope) (rest : Lines) → IsScope tables.now unit scope
        → IsCallable scope (type_of scope (name_of instance.now))
        → ArePassable scope (name_of instance.now) (map assignment_view list.now)
        → length (map assignment_view list.now) < 65536
        → Adds
        (IsStepLowered scope rest
        (Call condition (name_of instance.now) (map assignment_view list.now)))
        (step_sources line
        (Call condition (name_of instance.now) (map assignment_view list.now)))
        flat.old flat.new) }
{
    put_arguments(tables, unit, instance, list, Direction::OutOf, line, flat)?;
    flat.put(body_line(tables, unit, instance), line)?;
    put_arguments(tables, unit, instance, list, Direction::Into, line, flat)?;
    let skip = call_length(list.len());
    flat.put(Code::Call { condition, skip }, line)
}
