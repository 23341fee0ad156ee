ghost use Rattle.std.specs.Prelude.{◌≡◌, ◌+◌, ◌++◌, List, Some, IfOk, OnOk, length, option_map, slice_get};
ghost use Rattle.wc_model.specs.Definitions.{first_numbers, frame_of, slot_kinds, block_places, unit_places, variable_places, Variable as Declared, is_block, type_named, Scope, ProgramUnit};
ghost use Rattle.wc_names.specs.Carrying.{AreFinished, EachHoldsFirst, HoldsFirst, IsStarted, IsGrown, contents_of};
ghost use Rattle.wc_names.specs.RepresentsText.{Represents, type_at};
ghost use Rattle.wc_names.specs.declared.unit_table.UnitTable.{UnitTable};

use crate::declared_type::DeclaredType;
use crate::frame::{
    Frame, append, first_number, no_slots, push, push_direct, push_standard, slot_of,
};
use crate::unit_table::UnitTable;
use crate::variable::Variable;
use std::alloc::{AllocError, Global};

/// Adds the slots of an instance of a unit before, of which they are finished.
fn push_finished(frame: &mut Frame, finished: &[Frame], unit: usize) -> Result<(), AllocError>
    ensures kinds { OnOk result
        ((more : Frame) → slice_get finished.now unit ≡ Some more
        → frame.new.kinds.items ≡ frame.old.kinds.items ++ more.kinds.items) }
    ensures initials { OnOk result
        ((more : Frame) → slice_get finished.now unit ≡ Some more
        → frame.new.initials.items ≡ frame.old.initials.items ++ more.initials.items) }
    ensures first { OnOk result
        (EachHoldsFirst finished.now → HoldsFirst frame.old → HoldsFirst frame.new) }
{
    match finished.get(unit) {
        Some(more) => append(frame, more),
        None => Ok(()),
    }
}

/// Adds the slots of a variable. Those of an instance of a unit before are finished.
fn push_row(frame: &mut Frame, finished: &[Frame], row: &Variable) -> Result<(), AllocError>
    ensures grown { (units : List UnitTable) (before : List ProgramUnit) (u : ProgramUnit)
        (v : Declared) → Represents units before u → AreFinished units (length before) finished.now
        → row.now.initial ≡ option_map (λ i. i.value) v.initial
        → type_at before v.type_name ≡ Some row.now.declared
        → OnOk result
        (IsGrown frame.old frame.new
        (contents_of
        (variable_places (block_places before) (type_named before v.type_name) v.initial))) }
    ensures first { OnOk result
        (EachHoldsFirst finished.now → HoldsFirst frame.old → HoldsFirst frame.new) }
{
    match row.declared {
        DeclaredType::Elementary(kind) => {
            push(frame, slot_of(kind), first_number(kind, row.initial))
        }
        DeclaredType::Standard(block) => push_standard(frame, block),
        DeclaredType::Block(block) => push_finished(frame, finished, block),
    }
}

/// Adds the slots of a unit's variables. It goes over each variable once: the slots of instances are finished.
fn push_unit<'a>(
    frame: &mut Frame,
    finished: &[Frame],
    units: &[UnitTable<'a>],
    unit: usize,
) -> Result<(), AllocError>
    ensures grown { (before : List ProgramUnit) (u : ProgramUnit) → Represents units.now before u
        → unit ≡ length before → AreFinished units.now unit finished.now
        → OnOk result (IsGrown frame.old frame.new (contents_of (unit_places before u))) }
    ensures first { OnOk result
        (EachHoldsFirst finished.now → HoldsFirst frame.old → HoldsFirst frame.new) }
{
    let Some(table) = units.get(unit) else {
        return Ok(());
    };
    for row in &table.rows {
        push_row(frame, finished, row)?;
    }
    Ok(())
}

/// Finishes the slots of an instance of the unit after those that are finished.
fn finish<'a>(
    alloc: Global,
    finished: &mut Vec<Frame>,
    units: &[UnitTable<'a>],
    unit: usize,
) -> Result<(), AllocError>
    ensures finished { OnOk result
        (AreFinished units.now unit finished.old.items
        → AreFinished units.now (unit + 1) finished.new.items) }
    ensures first { OnOk result
        (EachHoldsFirst finished.old.items → EachHoldsFirst finished.new.items) }
{
    let mut frame = no_slots(alloc);
    push_unit(&mut frame, finished, units, unit)?;
    finished.push(frame)?;
    Ok(())
}

/// The slots of an instance of each unit before one. Each unit's are put together once, from those of the units
/// before it, so that the work is that of all units' variables and places, however instances are nested.
fn finish_before<'a>(
    alloc: Global,
    units: &[UnitTable<'a>],
    unit: usize,
) -> Result<Vec<Frame>, AllocError>
    ensures finished { IfOk result (λ frames. AreFinished units.now unit frames.items) }
    ensures first { IfOk result (λ frames. EachHoldsFirst frames.items) }
{
    let mut finished = Vec::new(alloc);
    for number in 0..unit {
        finish(alloc, &mut finished, units, number)?;
    }
    Ok(finished)
}

/// The slots that precede those of a unit's variables.
fn direct_variable_slots(alloc: Global, is_block: bool) -> Result<Frame, AllocError>
    ensures begins { IfOk result (IsStarted is_block) }
    ensures first { IfOk result HoldsFirst }
{
    let mut frame = no_slots(alloc);
    if is_block {
        return Ok(frame);
    }
    push_direct(&mut frame)?;
    Ok(frame)
}

/// Whether a unit is a function block.
fn is_function_block<'a>(units: &[UnitTable<'a>], unit: usize) -> bool
    ensures { (before : List ProgramUnit) (u : ProgramUnit) → Represents units.now before u
        → unit ≡ length before
        → result ≡ is_block u }
{
    match units.get(unit) {
        Some(table) => table.is_block,
        None => true,
    }
}

/// The slots of a unit's frame: a program's begins with the directly represented variables.
pub(crate) fn slots<'a>(
    alloc: Global,
    units: &[UnitTable<'a>],
    unit: usize,
) -> Result<Frame, AllocError>
    ensures kinds { (scope : Scope) → Represents units.now scope.before scope.unit
        → unit ≡ length scope.before
        → IfOk result (λ frame. frame.kinds.items ≡ slot_kinds (frame_of scope)) }
    ensures initials { (scope : Scope) → Represents units.now scope.before scope.unit
        → unit ≡ length scope.before
        → IfOk result (λ frame. frame.initials.items ≡ first_numbers (frame_of scope)) }
    ensures first { IfOk result HoldsFirst }
{
    let finished = finish_before(alloc, units, unit)?;
    let mut frame = direct_variable_slots(alloc, is_function_block(units, unit))?;
    push_unit(&mut frame, &finished, units, unit)?;
    Ok(frame)
}
