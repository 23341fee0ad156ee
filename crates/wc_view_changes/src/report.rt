ghost use Rattle.std.specs.Prelude.{◌≡◌, ◌++◌, IfOk, IsOkUnless, OnOk};
ghost use Rattle.wc_model.specs.Language.Views.{text_view};
ghost use Rattle.wc_view_changes.specs.ChangeReport.{change_notes, change_report, lines_alongside};

use crate::describing::{Pass, Texts, UnitPair, describe_unit};
use std::alloc::Global;
use wc_cost::Loaded;
use wc_model::Fault;
use wc_verify::Checked;

/// Puts the lines of the variables of a text's program, next to the program of the other text.
fn describe_program(
    alloc: Global,
    out: &mut Vec<u8>,
    pass: Pass,
    own: &Checked<'_>,
    other: &Checked<'_>,
) -> Result<(), Fault>
    ensures lines { OnOk result (out.new.items ≡ out.old.items
        ++ lines_alongside pass (text_view other.now.source) own.now.source) }
    ensures memory { IsOkUnless result Fault.Memory }
{
    let texts = Texts { pass, own, other };
    let Some(unit) = own.source().units.len().checked_sub(1) else {
        return Ok(());
    };
    let other = other.source().units.len().checked_sub(1);
    let mut names = Vec::new(alloc);
    describe_unit(out, texts, &mut names, UnitPair { unit, other })
}

/// What a change from a program to another would keep, with no change made: a line for each variable of the new program,
/// through all depths of instances and in the order of declaration. `kept` and its names are printed if it keeps its value,
/// else `first`, its names, its type, its first value, and why: `new`, or `was` and the type that the old program has under
/// these names. A standard function block is kept whole or not at all, and has one line. After them comes a line for each
/// variable of the old program that is lost, in its order of declaration: `lost`, its names and its type, if the new
/// program has no variable and no standard function block of these names. `Memory` is the only fault.
pub fn changes(alloc: Global, old: &Loaded<'_>, new: &Loaded<'_>) -> Result<Vec<u8>, Fault>
    ensures report { IfOk result
        (λ lines. lines.items ≡ change_report old.now.source new.now.source) }
    ensures memory { IsOkUnless result Fault.Memory }
{
    let mut lines = Vec::new(alloc);
    describe_program(alloc, &mut lines, Pass::New, new.checked(), old.checked())?;
    describe_program(alloc, &mut lines, Pass::Old, old.checked(), new.checked())?;
    Ok(lines)
}

/// A note on each variable of the new program that keeps its value though its first value is another than before: the first value
/// that is not taken, and the one of the old program; as objects (JSON, one a line), or in words. `Memory` is the only fault.
pub fn notes(
    alloc: Global,
    as_objects: bool,
    old: &Loaded<'_>,
    new: &Loaded<'_>,
) -> Result<Vec<u8>, Fault>
    ensures notes { IfOk result
        (λ lines. lines.items ≡ change_notes as_objects old.now.source new.now.source) }
    ensures memory { IsOkUnless result Fault.Memory }
{
    let mut lines = Vec::new(alloc);
    let pass = Pass::Notes(as_objects);
    describe_program(alloc, &mut lines, pass, new.checked(), old.checked())?;
    Ok(lines)
}
