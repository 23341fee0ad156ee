ghost use Rattle.std.specs.Prelude.{◌≡◌, OnOk, map};
ghost use Rattle.wc_model.specs.Definitions.{name_of, Scope, assignment_view, term_view};
ghost use Rattle.wc_cost.specs.Lowerable.{ArePassable, IsPassable};
ghost use Rattle.wc_cost.specs.Lowering.{AddsPassed, IsPassed, same_direction};
ghost use Rattle.wc_verify.specs.Seeing.{IsScope};

use crate::flat::Flat;
use crate::operands::{flat_operand, place_of};
use crate::steps::argument_line;
use std::alloc::AllocError;
use wc_model::{Argument, Code, Direction, Operand};
use wc_names::Tables;

/// The flat line that assigns an input or gives an output out: that of an output moves a place to a place, as that of an input
/// does.
fn passing_line<'a>(
    tables: &Tables<'a>,
    unit: usize,
    instance: &[u8],
    argument: &Argument<'a>,
) -> Code
    ensures { (scope : Scope) → IsScope tables.now unit scope
        → IsPassable scope (name_of instance.now) argument.now.direction
        (name_of argument.now.name.now) (term_view argument.now.value)
        → IsPassed argument.now.direction scope (name_of instance.now)
        (assignment_view argument.now) result }
{
    let field = Operand::Field {
        instance,
        field: argument.name,
    };
    match argument.direction {
        Direction::Into => argument_line(
            flat_operand(tables, unit, &argument.value),
            place_of(tables, unit, &field),
        ),
        Direction::OutOf => argument_line(
            flat_operand(tables, unit, &field),
            place_of(tables, unit, &argument.value),
        ),
    }
}

/// Whether an argument has this direction.
fn goes(argument: &Argument<'_>, direction: Direction) -> bool
    ensures { result ≡ same_direction argument.now.direction direction }
{
    argument.direction == direction
}

/// Puts the flat lines of the inputs that a call's list assigns, or of the outputs that it gives out, before those that are
/// there.
pub(crate) fn put_arguments<'a>(
    tables: &Tables<'a>,
    unit: usize,
    instance: &[u8],
    arguments: &[Argument<'a>],
    direction: Direction,
    line: u32,
    flat: &mut Flat,
) -> Result<(), AllocError>
    ensures { OnOk result
        ((scope : Scope) → IsScope tables.now unit scope
        → ArePassable scope (name_of instance.now) (map assignment_view arguments.now)
        → AddsPassed direction scope (name_of instance.now) line
        (map assignment_view arguments.now) flat.old flat.new) }
{
    for index in (0..arguments.len()).rev() {
        let Some(last) = arguments.get(index) else {
            continue;
        };
        if !goes(last, direction) {
            continue;
        }
        let code = passing_line(tables, unit, instance, last);
        flat.put(code, line)?;
    }
    Ok(())
}
